//! A set that counts the calls of another.

ghost use Rattle.std.specs.Prelude.{◌≡◌, ℕ, None, Some};
ghost use Rattle.ob_plain.specs.declared.counting.Counting.{Counting};
ghost use Rattle.std.proofs.Common.{ap, ◌∙◌};
ghost use Rattle.ob_plain.specs.Plain.{unless_told};
ghost use Rattle.ob_plain.specs.Counting.{counting_procedures, counted, part_of, opens_of, closes_of, deletes_of};
ghost use Rattle.ob_plain.specs.Fronts.{counted_front};

use crate::Plain;
use ob_types::{ParseAnswer, Reason, Refusal, TypeSet};
use std::alloc::{AllocError, Global};

/// A set of types with the numbers of the opens that it accepted, the closes and the deletes since
/// it was made. Each number stops at the greatest u64. (this profile)
#[derive(Debug, Drop)]
pub struct Counting<T> {
    part: T,
    opens: u64,
    closes: u64,
    deletes: u64,
}

impl<T> Counting<T> {
    /// A set with nothing counted yet.
    pub fn new(part: T) -> Self
        ensures part { part_of result ≡ part }
        ensures opens { opens_of result ≡ 0 }
        ensures closes { closes_of result ≡ 0 }
        ensures deletes { deletes_of result ≡ 0 }
    {
        Counting {
            part,
            opens: 0,
            closes: 0,
            deletes: 0,
        }
    }

    /// The opens that were accepted.
    pub fn opens(&self) -> u64
        ensures { result ≡ opens_of self.now }
    {
        self.opens
    }

    /// The closes.
    pub fn closes(&self) -> u64
        ensures { result ≡ closes_of self.now }
    {
        self.closes
    }

    /// The deletes.
    pub fn deletes(&self) -> u64
        ensures { result ≡ deletes_of self.now }
    {
        self.deletes
    }
}

/// Every call is handed to the set below, whose answers and laws this set has; then it is counted.
/// An open that is refused is not counted. (this profile)
impl<T: TypeSet> TypeSet for Counting<T> {
    type Kind = T::Kind;

    type Face = T::Face;

    type Inner = T::Inner;

    ghost procedures = { counting_procedures T.procedures };

    ghost idle = { T.idle };

    fn type_name(kind: T::Kind) -> &'static str {
        T::type_name(kind)
    }

    fn kind_of(face: &T::Face) -> T::Kind {
        T::kind_of(face)
    }

    fn parses(kind: T::Kind) -> bool {
        T::parses(kind)
    }

    fn same(a: &T::Face, b: &T::Face) -> bool {
        T::same(a, b)
    }

    fn parse(
        alloc: Global,
        face: &T::Face,
        rest: &[u8],
    ) -> Result<ParseAnswer<T::Face, T::Inner>, AllocError> {
        T::parse(alloc, face, rest)
    }

    fn make(alloc: Global, kind: T::Kind, args: &[u8]) -> Result<(T::Face, T::Inner), Refusal> {
        T::make(alloc, kind, args)
    }

    fn on_open(&mut self, inner: &mut T::Inner, reason: Reason) -> Result<(), u16> {
        self.part.on_open(inner, reason)?;
        self.opens = self.opens.saturating_add(1);
        Ok(())
    }

    fn on_close(&mut self, inner: &mut T::Inner, process_left: u32, system_left: u32) {
        self.part.on_close(inner, process_left, system_left);
        self.closes = self.closes.saturating_add(1);
    }

    fn on_delete(&mut self, inner: T::Inner) {
        self.part.on_delete(inner);
        self.deletes = self.deletes.saturating_add(1);
    }

    ghost refused_open = { λ counting inner reason k told.
        ap (λ left. (
          record counting {
            part = left.0;
            opens = unless_told
                ((T.procedures).refuses_to_open counting.part inner reason) counting.opens
                (counted counting.opens);
          },
          left.1,
        )) (T.refused_open counting.part inner reason k told) ∙ ap
        (λ refusal. (
          record counting {
            opens = unless_told refusal counting.opens
                (counted counting.opens);
          },
          inner,
        )) told };

    ghost made_idle = { T.made_idle };

    ghost closed_idle = { λ counting. T.closed_idle counting.part };

    ghost front_is_used = { counted_front T.procedures T.front_is_used };

    ghost itself_at_end = { T.itself_at_end };

    ghost parsed_idle = { T.parsed_idle };

    ghost own_face = { T.own_face };

    ghost same_answers = { T.same_answers };

    ghost one_kind = { T.one_kind };

    ghost own_kind = { T.own_kind };

    ghost equal_kinds = { T.equal_kinds };
}

/// An open is counted exactly where the set below accepts it, and changes no other number. This
/// holds of every lawful set; nothing is done when it runs. (this profile)
pub fn accepted_opens_count<T: TypeSet>()
    ensures below { (set : Counting T) (inner : T.Inner) (reason : Reason)
        → part_of ((counting_procedures T.procedures).opened set inner reason).0
        ≡ ((T.procedures).opened (part_of set) inner reason).0 }
    ensures accepted { (set : Counting T) (inner : T.Inner) (reason : Reason)
        → (T.procedures).refuses_to_open (part_of set) inner reason ≡ None
        → opens_of ((counting_procedures T.procedures).opened set inner reason).0
        ≡ counted (opens_of set) }
    ensures refused { (set : Counting T) (inner : T.Inner) (reason : Reason) (k : ℕ)
        → (T.procedures).refuses_to_open (part_of set) inner reason ≡ Some k
        → opens_of ((counting_procedures T.procedures).opened set inner reason).0 ≡ opens_of set }
    ensures closes { (set : Counting T) (inner : T.Inner) (reason : Reason)
        → closes_of ((counting_procedures T.procedures).opened set inner reason).0 ≡ closes_of set }
    ensures deletes { (set : Counting T) (inner : T.Inner) (reason : Reason)
        → deletes_of ((counting_procedures T.procedures).opened set inner reason).0
        ≡ deletes_of set }
{}
