//! Chains of deletions, whose places are made ahead of their use.

ghost use Rattle.std.specs.Prelude.{◌≡◌, ◌==◌, [], ◌∷◌, ◌++◌, ◌↔◌, IsTrue, IfOk, IfSome, IfNone, length, reverse};
ghost use Rattle.ob_host.specs.Chain.{items};

use crate::HostDeletion;
use std::alloc::AllocError;
use std::mem;

/// A chain of deletions, the one that was put in last first.
pub(crate) enum Chain {
    /// No deletion.
    End,
    /// A deletion, and those after it.
    More(HostDeletion, Box<Chain>),
}

impl Chain {
    /// Whether there is no deletion.
    pub(crate) fn is_end(&self) -> bool
        ensures { IsTrue result ↔ (items self.now ≡ []) }
    {
        matches!(self, Chain::End)
    }

    /// Another chain of the same deletions. The only error is out of memory.
    pub(crate) fn copied(&self) -> Result<Chain, AllocError>
        ensures { IfOk result (λ copy. items copy ≡ items self.now) }
    {
        let mut turned = Chain::End;
        let mut rest = self;
        while let Chain::More(deletion, place) = rest {
            let alloc = *Box::allocator(place);
            turned.push(deletion.clone()?, Box::new(alloc, Chain::End)?);
            rest = place;
        }
        Ok(turned.reversed())
    }

    /// Puts a deletion in front. The place after it is where the deletions so far go; what was there is lost.
    pub(crate) fn push(&mut self, deletion: HostDeletion, mut place: Box<Chain>)
        ensures { items self.new ≡ deletion ∷ items self.old }
    {
        *place = mem::replace(self, Chain::End);
        *self = Chain::More(deletion, place);
    }

    /// Takes the first deletion, and the place that was after it.
    pub(crate) fn pop(&mut self) -> Option<(HostDeletion, Box<Chain>)>
        ensures taken { IfSome result (λ first. items self.old ≡ first.0 ∷ items self.new) }
        ensures none { IfNone result ((items self.old ≡ []) × (items self.new ≡ [])) }
    {
        let (deletion, mut place) = mem::replace(self, Chain::End).parted()?;
        *self = mem::replace(&mut place, Chain::End);
        Some((deletion, place))
    }

    // The first deletion, and the place that those after it are in.
    fn parted(self) -> Option<(HostDeletion, Box<Chain>)>
        ensures found { IfSome result (λ first. items self ≡ first.0 ∷ items first.1.value) }
        ensures none { IfNone result (items self ≡ []) }
    {
        match self {
            Chain::End => None,
            Chain::More(deletion, place) => Some((deletion, place)),
        }
    }

    /// The deletions in the other order. No memory is taken.
    pub(crate) fn reversed(mut self) -> Chain
        ensures { items result ≡ reverse (items self) }
    {
        let mut turned = Chain::End;
        while let Some((deletion, place)) = self.pop() {
            turned.push(deletion, place);
        }
        turned
    }
}

/// One deletion after another, since a chain may be long.
impl Drop for Chain {
    fn drop(mut self) {
        loop {
            match self {
                Chain::End => return,
                Chain::More(_deletion, rest) => self = Box::into_inner(rest),
            }
        }
    }
}
