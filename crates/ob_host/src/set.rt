//! The set of a caller's own objects.

ghost use Rattle.std.specs.Prelude.{◌≡◌, ◌∷◌, [], List, IfOk, IfSome, IfNone, IsOk, None, refl};
ghost use Rattle.std.proofs.Common.{rules};
ghost use Rattle.ob_model.specs.Procedures.{Itself};
ghost use Rattle.ob_types.specs.Parsing.{answer_of};
ghost use Rattle.ob_host.specs.Deletions.{Keeps, behind_next, next_deletion, unused};
ghost use Rattle.ob_host.specs.declared.deletion.HostDeletion.{HostDeletion};
ghost use Rattle.ob_host.specs.Host.{host_procedures, IsIdle, kind_below, unopened, is_itself, answer_to};
ghost use Rattle.ob_host.specs.KindLaws.{same_kind_is_one, own_kind_is_same};
ghost use Rattle.ob_host.specs.HostLaws.{host_front, host_itself, host_parsed_idle, host_own_face, host_same_answers, host_unnoticed};

use crate::args::{text_of, user_data_of};
use crate::chain::Chain;
use crate::{HostDeletion, HostInner, HostObject, Kind};
use ob_model::Bytes;
use ob_types::{Copied, Drains, ParseAnswer, Reason, Refusal, TypeSet};
use std::alloc::{AllocError, Global};
use std::marker::Model;
use std::mem;

/// The set of a caller's own objects. It keeps the list of the deletions that were not taken yet, the first of them first, and
/// the last serial that was drawn; a contract sees `Keeps` and that list, and the serial. (this profile)
#[derive(Drop)]
pub struct HostSet {
    older: Chain,
    newer: Chain,
    last: u64,
}

impl Model for HostSet {
    ghost use Rattle.std.specs.Prelude.{◌++◌, reverse};
    ghost use Rattle.ob_host.specs.Deletions.{Hosted, Keeps};

    ghost Value = { Hosted };

    ghost use Rattle.ob_host.specs.Chain.{items};

    ghost view = { λ set.
        record { deletions = Keeps (items set.older ++ reverse (items set.newer)); last = set.last } };
}

impl HostSet {
    /// The set with nothing opened or deleted yet.
    pub fn new() -> HostSet
        ensures { result ≡ unused }
    {
        HostSet {
            older: Chain::End,
            newer: Chain::End,
            last: 0,
        }
    }

    /// Takes the first deletion that wasn't taken yet; `None` where there is none. No memory is taken, and a call costs the
    /// same on the average however many there are.
    ///
    /// Between the steps of a namespace that has the set its owner takes it by `take_next` of [`Drains`], which is
    /// the same.
    pub fn take_deleted(&mut self) -> Option<HostDeletion>
        ensures taken { IfSome result (λ deletion. (left : List HostDeletion)
            × (self.old.deletions ≡ Keeps (deletion ∷ left)) × (self.new.deletions ≡ Keeps left)) }
        ensures none { IfNone result ((self.old.deletions ≡ Keeps [])
            × (self.new.deletions ≡ Keeps [])) }
        ensures serials { self.new.last ≡ self.old.last }
    {
        if self.older.is_end() {
            self.older = mem::replace(&mut self.newer, Chain::End).reversed();
        }
        let (deletion, _place) = self.older.pop()?;
        Some(deletion)
    }

    /// The law that the set keeps a list, and passes no delete over. The call does nothing; a caller makes it to have
    /// the fact. (this profile)
    pub fn keeps_a_list(&self)
        ensures { (deletions : List HostDeletion) × (self.now.deletions ≡ Keeps deletions) }
    {
        let _older = &self.older;
    }
}

/// An object is made of each kind and of any arguments. Their first eight bytes are its user data, the lowest first, and
/// those that aren't there are 0; the bytes after them are its text.
///
/// A device and a key parse: the whole rest, whatever it is, leads from a device to a file, and from a key to a key;
/// the empty rest names the key itself, and a file of the device. The object that a rest leads to has the user
/// data of the one that it leads from, and as its text that one's text and the rest, with a backslash between them where
/// there is a text and the rest begins with none. No other kind parses; 3 is answered there.
///
/// An open is never refused, and adds one to the number of handles, which stops at the greatest u32; the first open of an object
/// draws its serial, one more than the last, which stops at the greatest u64. A close sets the number to the handles left
/// in the system. A delete puts the object at the end of the list of the deletions, with its serial, and whether a parse
/// made it. (this profile; parse methods: Windows Internals, Object Manager)
impl TypeSet for HostSet {
    type Kind = Kind;

    type Face = HostObject;

    type Inner = HostInner;

    ghost procedures = { host_procedures };

    ghost idle = { IsIdle };

    fn type_name(kind: Kind) -> &'static str {
        kind.type_name()
    }

    fn kind_of(face: &HostObject) -> Kind {
        face.kind
    }

    fn parses(kind: Kind) -> bool {
        kind_below(kind).is_some()
    }

    fn same(a: &HostObject, b: &HostObject) -> bool {
        a == b
    }

    fn make(alloc: Global, kind: Kind, args: &[u8]) -> Result<(HostObject, HostInner), Refusal> {
        let text = Bytes::from_slice(alloc, text_of(args))?;
        let object = HostObject {
            kind,
            user_data: user_data_of(args),
            text,
        };
        Ok(instance(alloc, object, false)?)
    }

    fn parse(
        alloc: Global,
        face: &HostObject,
        rest: &[u8],
    ) -> Result<ParseAnswer<HostObject, HostInner>, AllocError>
        ensures answer { IfOk result (λ answer. answer_of answer ≡ answer_to face.now rest.now) }

        // An object that makes nothing takes no memory.
        ensures refused { kind_below face.now.kind ≡ None → IsOk result }
        ensures itself { answer_to face.now rest.now ≡ Itself → IsOk result }
    {
        let Some(kind) = kind_below(face.kind) else {
            return Ok(ParseAnswer::Refused(3));
        };
        if is_itself(kind, rest) {
            return Ok(ParseAnswer::Itself);
        }
        let (next, inner) = instance(alloc, face.below(alloc, kind, rest)?, true)?;
        Ok(ParseAnswer::Front {
            used: rest.len(),
            next,
            inner,
        })
    }

    fn on_open(&mut self, inner: &mut HostInner, _reason: Reason) -> Result<(), u16> {
        if inner.serial() == 0 {
            self.last = self.last.saturating_add(1);
            inner.set_serial(self.last);
        }
        inner.add_handle();
        Ok(())
    }

    fn on_close(&mut self, inner: &mut HostInner, _process_left: u32, system_left: u32) {
        inner.set_handles(system_left);
    }

    fn on_delete(&mut self, inner: HostInner) {
        let (deletion, place) = inner.into_deletion();
        self.newer.push(deletion, place);
    }

    ghost refused_open = { λ set inner _ _ told. Prim.search rules };

    ghost made_idle = { λ _ _ _. refl };

    ghost closed_idle = { λ _ _ _. refl };

    ghost front_is_used = { host_front };

    ghost itself_at_end = { host_itself };

    ghost parsed_idle = { host_parsed_idle };

    ghost own_face = { host_own_face };

    ghost same_answers = { host_same_answers };

    ghost one_kind = { same_kind_is_one };

    ghost own_kind = { own_kind_is_same };

    ghost equal_kinds = { λ _ _. refl };
}

/// A copy keeps the same deletions, and draws the same serial next. (this profile)
impl Copied for HostSet {
    fn copied(&self) -> Result<HostSet, AllocError> {
        Ok(HostSet {
            older: self.older.copied()?,
            newer: self.newer.copied()?,
            last: self.last,
        })
    }
}

/// The next item is the first deletion that wasn't taken yet. (this profile)
impl Drains for HostSet {
    type Item = HostDeletion;

    ghost next = { next_deletion };

    ghost behind = { behind_next };

    fn take_next(&mut self) -> Option<HostDeletion> {
        self.take_deleted()
    }

    ghost unnoticed = { host_unnoticed };
}

// The kind of what names lead to through an object of this kind; `None` where it doesn't parse.
fn kind_below(kind: Kind) -> Option<Kind>
    ensures { result ≡ kind_below kind }
{
    match kind {
        Kind::Device => Some(Kind::File),
        Kind::Key => Some(Kind::Key),
        _ => None,
    }
}

// Whether the rest names the object itself, where it leads to objects of this kind: the empty one, at a key.
fn is_itself(kind: Kind, rest: &[u8]) -> bool
    ensures { result ≡ is_itself kind rest.now }
{
    kind == Kind::Key && rest.is_empty()
}

// The face and the inner value of an object, made by a parse or by a create. The only error is out of memory.
fn instance(
    alloc: Global,
    object: HostObject,
    parsed: bool,
) -> Result<(HostObject, HostInner), AllocError>
    ensures { IfOk result (λ made. made ≡ (object, unopened parsed object)) }
{
    let inner = HostInner::new(alloc, object.clone()?, parsed)?;
    Ok((object, inner))
}
