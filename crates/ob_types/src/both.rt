//! The sum of two sets.

ghost use Rattle.std.specs.Prelude.{◌≡◌, ℕ, false, List, refl};
ghost use Rattle.ob_types.specs.declared.both.Both.{Both};
ghost use Rattle.either.specs.declared.Either.TheVariants.{Left, Right};
ghost use Rattle.ob_types.specs.Parsing.{answer_of};
ghost use Rattle.ob_types.specs.Both.{both_procedures, IsEitherIdle, LeavesFirst, LeavesSecond, first_of, second_of, answer_of_first, answer_of_second};
ghost use Rattle.ob_types.specs.BothLaws.{both_refused_open, both_made_idle, both_closed_idle, both_one_kind, both_own_kind};
ghost use Rattle.ob_types.specs.BothLaws.{both_front, both_itself, both_parsed_idle, both_own_face, both_same_answers};

use crate::{ParseAnswer, Reason, Refusal, TypeSet};
use either::Either;
use std::alloc::{AllocError, Global};

/// Two sets as one: its objects are those of the first and those of the second. (this profile)
#[derive(Debug, Drop)]
pub struct Both<A, B> {
    first: A,
    second: B,
}

impl<A, B> Both<A, B> {
    /// The sum of two sets.
    pub fn new(first: A, second: B) -> Self
        ensures first { first_of result ≡ first }
        ensures second { second_of result ≡ second }
    {
        Both { first, second }
    }

    /// The first set.
    pub fn first(&self) -> &A
        ensures { result.now ≡ first_of self.now }
    {
        &self.first
    }

    /// The second set.
    pub fn second(&self) -> &B
        ensures { result.now ≡ second_of self.now }
    {
        &self.second
    }
}

/// Every call is handed to the part that owns the kind, the face or the inner value, whose answers this set
/// has. The other part is left as it is. Kinds, and faces, of different parts are never the same. (this profile)
impl<A: TypeSet, B: TypeSet> TypeSet for Both<A, B> {
    type Kind = Either<A::Kind, B::Kind>;

    type Face = Either<A::Face, B::Face>;

    type Inner = Either<A::Inner, B::Inner>;

    ghost procedures = { both_procedures A.procedures B.procedures };

    ghost idle = { IsEitherIdle A.idle B.idle };

    fn type_name(kind: Self::Kind) -> &'static str {
        match kind {
            Either::Left(kind) => A::type_name(kind),
            Either::Right(kind) => B::type_name(kind),
        }
    }

    fn kind_of(face: &Self::Face) -> Self::Kind {
        match face {
            Either::Left(face) => Either::Left(A::kind_of(face)),
            Either::Right(face) => Either::Right(B::kind_of(face)),
        }
    }

    fn parses(kind: Self::Kind) -> bool {
        match kind {
            Either::Left(kind) => A::parses(kind),
            Either::Right(kind) => B::parses(kind),
        }
    }

    fn same(a: &Self::Face, b: &Self::Face) -> bool {
        match (a, b) {
            (Either::Left(a), Either::Left(b)) => A::same(a, b),
            (Either::Right(a), Either::Right(b)) => B::same(a, b),
            _ => false,
        }
    }

    fn make(
        alloc: Global,
        kind: Self::Kind,
        args: &[u8],
    ) -> Result<(Self::Face, Self::Inner), Refusal> {
        match kind {
            Either::Left(kind) => {
                let (face, inner) = A::make(alloc, kind, args)?;
                Ok((Either::Left(face), Either::Left(inner)))
            }
            Either::Right(kind) => {
                let (face, inner) = B::make(alloc, kind, args)?;
                Ok((Either::Right(face), Either::Right(inner)))
            }
        }
    }

    fn parse(
        alloc: Global,
        face: &Self::Face,
        rest: &[u8],
    ) -> Result<ParseAnswer<Self::Face, Self::Inner>, AllocError> {
        match face {
            Either::Left(face) => Ok(of_first(A::parse(alloc, face, rest)?)),
            Either::Right(face) => Ok(of_second(B::parse(alloc, face, rest)?)),
        }
    }

    fn on_open(&mut self, inner: &mut Self::Inner, reason: Reason) -> Result<(), u16> {
        match inner {
            Either::Left(inner) => self.first.on_open(inner, reason),
            Either::Right(inner) => self.second.on_open(inner, reason),
        }
    }

    fn on_close(&mut self, inner: &mut Self::Inner, process_left: u32, system_left: u32) {
        match inner {
            Either::Left(inner) => self.first.on_close(inner, process_left, system_left),
            Either::Right(inner) => self.second.on_close(inner, process_left, system_left),
        }
    }

    fn on_delete(&mut self, inner: Self::Inner) {
        match inner {
            Either::Left(inner) => self.first.on_delete(inner),
            Either::Right(inner) => self.second.on_delete(inner),
        }
    }

    ghost refused_open = { both_refused_open A.procedures B.procedures A.refused_open
        B.refused_open };

    ghost made_idle = { both_made_idle A.procedures B.procedures A.idle B.idle A.made_idle
        B.made_idle };

    ghost closed_idle = { both_closed_idle A.procedures B.procedures A.idle B.idle A.closed_idle
        B.closed_idle };

    ghost front_is_used = { both_front A.procedures B.procedures A.front_is_used B.front_is_used };

    ghost itself_at_end = { both_itself A.procedures B.procedures A.itself_at_end B.itself_at_end };

    ghost parsed_idle = { both_parsed_idle A.procedures B.procedures A.idle B.idle A.parsed_idle
        B.parsed_idle };

    ghost own_face = { both_own_face A.procedures B.procedures A.own_face B.own_face };

    ghost same_answers = { both_same_answers A.procedures B.procedures A.same_answers
        B.same_answers };

    ghost one_kind = { both_one_kind A.procedures B.procedures A.one_kind B.one_kind };

    ghost own_kind = { both_own_kind A.procedures B.procedures A.own_kind B.own_kind };

    ghost equal_kinds = { elim [
      | Left a ↦ elim [ Left b ↦ A.equal_kinds a b | Right b ↦ refl ]
      | Right a ↦ elim [ Left b ↦ refl | Right b ↦ B.equal_kinds a b ]
    ] };
}

/// An answer of the first set.
fn of_first<F: Drop, I: Drop, G, J>(
    answer: ParseAnswer<F, I>,
) -> ParseAnswer<Either<F, G>, Either<I, J>>
    ensures { answer_of result ≡ answer_of_first (answer_of answer) }
{
    match answer {
        ParseAnswer::Itself => ParseAnswer::Itself,
        ParseAnswer::Front { used, next, inner } => ParseAnswer::Front {
            used,
            next: Either::Left(next),
            inner: Either::Left(inner),
        },
        ParseAnswer::Reparse(text) => ParseAnswer::Reparse(text),
        ParseAnswer::Refused(code) => ParseAnswer::Refused(code),
    }
}

/// An answer of the second set.
fn of_second<F, I, G: Drop, J: Drop>(
    answer: ParseAnswer<G, J>,
) -> ParseAnswer<Either<F, G>, Either<I, J>>
    ensures { answer_of result ≡ answer_of_second (answer_of answer) }
{
    match answer {
        ParseAnswer::Itself => ParseAnswer::Itself,
        ParseAnswer::Front { used, next, inner } => ParseAnswer::Front {
            used,
            next: Either::Right(next),
            inner: Either::Right(inner),
        },
        ParseAnswer::Reparse(text) => ParseAnswer::Reparse(text),
        ParseAnswer::Refused(code) => ParseAnswer::Refused(code),
    }
}

/// A call on a value of a part is that part's call, with its answer, and leaves the other part as it was.
/// Kinds, and faces, of different parts are never the same. This holds of every two lawful sets; nothing is
/// done when it runs. (this profile)
pub fn calls_go_to_their_part<A: TypeSet, B: TypeSet>()
    ensures opened_first { (both : Both A B) (inner : A.Inner) (reason : Reason)
        → LeavesFirst both ((A.procedures).opened (first_of both) inner reason)
        ((both_procedures A.procedures B.procedures).opened both (Left inner) reason) }
    ensures opened_second { (both : Both A B) (inner : B.Inner) (reason : Reason)
        → LeavesSecond both ((B.procedures).opened (second_of both) inner reason)
        ((both_procedures A.procedures B.procedures).opened both (Right inner) reason) }
    ensures refused_first { (both : Both A B) (inner : A.Inner) (reason : Reason)
        → (both_procedures A.procedures B.procedures).refuses_to_open both (Left inner) reason
        ≡ (A.procedures).refuses_to_open (first_of both) inner reason }
    ensures refused_second { (both : Both A B) (inner : B.Inner) (reason : Reason)
        → (both_procedures A.procedures B.procedures).refuses_to_open both (Right inner) reason
        ≡ (B.procedures).refuses_to_open (second_of both) inner reason }
    ensures closed_first { (both : Both A B) (inner : A.Inner) (process_left system_left : ℕ)
        → LeavesFirst both ((A.procedures).closed (first_of both) inner process_left system_left)
        ((both_procedures A.procedures B.procedures).closed both
        (Left inner) process_left system_left) }
    ensures closed_second { (both : Both A B) (inner : B.Inner) (process_left system_left : ℕ)
        → LeavesSecond both ((B.procedures).closed (second_of both) inner process_left system_left)
        ((both_procedures A.procedures B.procedures).closed both
        (Right inner) process_left system_left) }
    ensures deleted_first { (both : Both A B) (inner : A.Inner)
        → let left = (both_procedures A.procedures B.procedures).deleted both (Left inner) in
        (first_of left ≡ (A.procedures).deleted (first_of both) inner)
        × (second_of left ≡ second_of both) }
    ensures deleted_second { (both : Both A B) (inner : B.Inner)
        → let left = (both_procedures A.procedures B.procedures).deleted both (Right inner) in
        (second_of left ≡ (B.procedures).deleted (second_of both) inner)
        × (first_of left ≡ first_of both) }
    ensures parsed_first { (face : A.Face) (rest : List ℕ)
        → (both_procedures A.procedures B.procedures).parsed (Left face) rest
        ≡ answer_of_first ((A.procedures).parsed face rest) }
    ensures parsed_second { (face : B.Face) (rest : List ℕ)
        → (both_procedures A.procedures B.procedures).parsed (Right face) rest
        ≡ answer_of_second ((B.procedures).parsed face rest) }
    ensures kinds_apart { (a : A.Kind) (b : B.Kind)
        → ((both_procedures A.procedures B.procedures).same_kind (Left a) (Right b) ≡ false)
        × ((both_procedures A.procedures B.procedures).same_kind (Right b) (Left a) ≡ false) }
    ensures faces_apart { (a : A.Face) (b : B.Face)
        → ((both_procedures A.procedures B.procedures).same_face (Left a) (Right b) ≡ false)
        × ((both_procedures A.procedures B.procedures).same_face (Right b) (Left a) ≡ false) }
{}
