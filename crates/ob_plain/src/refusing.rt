//! A set that lets another accept so many opens, and refuses all after them.

ghost use Rattle.std.specs.Prelude.{◌≡◌, ℕ, ◌-◌, ◌==◌, cond, None, Some};
ghost use Rattle.ob_plain.specs.declared.refusing.Refusing.{Refusing};
ghost use Rattle.ob_plain.specs.Refusing.{refusing_procedures, allowed_of, left_of};
ghost use Rattle.ob_plain.specs.RefusingLaws.{refusing_refused, refusing_front};

use ob_types::{ParseAnswer, Reason, Refusal, TypeSet};
use std::alloc::{AllocError, Global};

/// The number by which an open is refused where none is left. (this profile)
const NONE_LEFT: u16 = 6;

/// A set of types that lets the set below it accept so many opens, and refuses each open after them by the number 6,
/// so that what follows a refusal can be tried wherever a handle is opened. (this profile)
#[derive(Debug, Drop)]
pub struct Refusing<T> {
    part: T,
    left: u64,
}

impl<T> Refusing<T> {
    /// A set that lets the one below it accept `left` opens. Takes no memory.
    pub fn new(types: T, left: u64) -> Self
        ensures part { allowed_of result ≡ types }
        ensures left { left_of result ≡ left }
    {
        Refusing { part: types, left }
    }

    /// How many opens may still be accepted.
    pub fn left(&self) -> u64
        ensures { result ≡ left_of self.now }
    {
        self.left
    }

    /// The set below.
    pub fn part(&self) -> &T
        ensures { result.now ≡ allowed_of self.now }
    {
        &self.part
    }
}

/// Every call is handed to the set below, whose answers and laws this set has; but an open is refused by the number 6
/// where none is left, and then the set below isn't asked. One that it accepts is one less that is left. (this profile)
impl<T: TypeSet> TypeSet for Refusing<T> {
    type Kind = T::Kind;

    type Face = T::Face;

    type Inner = T::Inner;

    ghost procedures = { refusing_procedures T.procedures };

    ghost idle = { T.idle };

    fn type_name(kind: T::Kind) -> &'static str {
        T::type_name(kind)
    }

    fn kind_of(face: &T::Face) -> T::Kind {
        T::kind_of(face)
    }

    fn parses(kind: T::Kind) -> bool {
        T::parses(kind)
    }

    fn same(a: &T::Face, b: &T::Face) -> bool {
        T::same(a, b)
    }

    fn parse(
        alloc: Global,
        face: &T::Face,
        rest: &[u8],
    ) -> Result<ParseAnswer<T::Face, T::Inner>, AllocError> {
        T::parse(alloc, face, rest)
    }

    fn make(alloc: Global, kind: T::Kind, args: &[u8]) -> Result<(T::Face, T::Inner), Refusal> {
        T::make(alloc, kind, args)
    }

    fn on_open(&mut self, inner: &mut T::Inner, reason: Reason) -> Result<(), u16> {
        if self.left == 0 {
            return Err(NONE_LEFT);
        }
        self.part.on_open(inner, reason)?;
        self.left -= 1;
        Ok(())
    }

    fn on_close(&mut self, inner: &mut T::Inner, process_left: u32, system_left: u32) {
        self.part.on_close(inner, process_left, system_left);
    }

    fn on_delete(&mut self, inner: T::Inner) {
        self.part.on_delete(inner);
    }

    ghost refused_open = { refusing_refused T.procedures T.refused_open };

    ghost made_idle = { T.made_idle };

    ghost closed_idle = { λ refusing. T.closed_idle refusing.part };

    ghost front_is_used = { refusing_front T.procedures T.front_is_used };

    ghost itself_at_end = { T.itself_at_end };

    ghost parsed_idle = { T.parsed_idle };

    ghost own_face = { T.own_face };

    ghost same_answers = { T.same_answers };

    ghost one_kind = { T.one_kind };

    ghost own_kind = { T.own_kind };

    ghost equal_kinds = { T.equal_kinds };
}
