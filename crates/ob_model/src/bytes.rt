//! Counted bytes.

ghost use Rattle.std.specs.Prelude.{◌≡◌, ◌≤◌, length, IfOk, IsOk, ◌==◌};
ghost use Rattle.std.specs.Cmp.Lexicographic.{pointwise};
ghost use Rattle.std.specs.Cmp.Rules.{comparing};
ghost use Rattle.std.proofs.Common.{rules};

use smallvec::SmallVec;
use std::alloc::{AllocError, Global};
use std::marker::Model;

/// Counted bytes: a name, a link's target or the arguments of an object, as handed in, of any
/// length and with any byte. Up to 16 of them lie in the value itself, so that a copy of so few takes no memory.
/// Contracts see a `Bytes` as the list of its bytes.
#[derive(Debug)]
pub struct Bytes {
    items: SmallVec<u8, 16>,
}

impl Drop for Bytes {
    // By hand, so that what owns bytes drops them by one call, in one way.
    fn drop(self) {
        let Bytes { items } = self;
        drop(items);
    }
}

impl Model for Bytes {
    ghost use Rattle.std.specs.Prelude.{List, ℕ};

    ghost Value = { List ℕ };

    ghost view = { λ b. b.items.items };
}

impl Clone for Bytes {
    ghost is_clone = { λ bytes copy. copy ≡ bytes };

    fn clone(&self) -> Result<Bytes, AllocError> {
        let items = self.items.clone()?;
        Ok(Bytes { items })
    }
}

impl PartialEq for Bytes {
    ghost eq = { pointwise ◌==◌ };

    ghost laws = { Prim.search (comparing, rules) };

    fn eq(&self, other: &Bytes) -> bool {
        self.as_slice() == other.as_slice()
    }
}

impl Eq for Bytes {
    ghost laws = { Prim.search (comparing, rules) };
}

impl Bytes {
    /// The bytes of a vector, which is taken as it is: no memory is taken.
    pub fn new(items: Vec<u8>) -> Self
        ensures { result ≡ items.items }
    {
        Bytes {
            items: SmallVec::from_vec(items),
        }
    }

    /// A copy of a slice's bytes. The only error is out of memory, and there is none for up to 16 bytes.
    pub fn from_slice(alloc: Global, items: &[u8]) -> Result<Self, AllocError>
        ensures copy { IfOk result (λ bytes. bytes ≡ items.now) }
        ensures short { length items.now ≤ 16 → IsOk result }
    {
        match SmallVec::from_slice(alloc, items) {
            Ok(items) => Ok(Bytes { items }),
            Err(fault) => Err(fault),
        }
    }

    /// The bytes, as a slice.
    pub fn as_slice(&self) -> &[u8]
        ensures { result.now ≡ self.now }
    {
        self.items.as_slice()
    }
}
