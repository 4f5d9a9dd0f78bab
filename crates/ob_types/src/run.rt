//! A parse run: the answers of parse procedures, one after the other, until one of them ends it.

ghost use Rattle.std.specs.Prelude.{◌≡◌, ◌<◌, length, true, MatchOption};
ghost use Rattle.ob_model.specs.Procedures.{ParseEnds};
ghost use Rattle.ob_types.specs.Parsing.{outcome_of, IfMade};
ghost use Rattle.ob_types.specs.Runs.{IfOnward, IfStepMade, Leads, IsMadeOf, RunsHaveOneEnd, SameFacesEndAlike};

use crate::{ParseAnswer, TypeSet, laws};
use ob_names::NameBuf;
use std::alloc::Global;
use std::sync::Arc;

/// How a parse run ends. (Windows Internals, Object Manager: parse methods; the forms of the end: this
/// profile) `F` and `I` are the face and the inner value of an object. Contracts see it as `ob_model`'s
/// outcome, which has none for lack of memory.
#[derive(Debug, Drop)]
pub enum Outcome<F, I> {
    /// The object itself is what was named.
    Itself,
    /// A new instance was made and is what was named: its face, and its inner value, which has no
    /// open handle.
    Made(Arc<F, Global>, I),
    /// The name is to be looked up again, as this absolute name.
    Reparse(NameBuf),
    /// The name is refused, with a number from 0 to 65,535 of the type's own.
    Refused(u16),
    /// Memory was wanted and there was none.
    NoMemory,
}

/// Where one answer leads.
#[derive(Drop)]
enum Step<'a, F, I> {
    /// The run is over.
    Over(Outcome<F, I>),
    /// An instance with this face is to parse what is left of the rest.
    Onward(F, &'a [u8]),
}

/// Parses the rest of a name that leads to an object with this face, whose kind parses.
///
/// - An answer that is no front ends the run as it is.
/// - A front that uses the rest up ends it with its instance.
/// - After another front the run goes on with its instance, which parses what is left. The instance is
///   dropped then: it was never opened, so there is no call for it.
/// - Memory refused, in a parse procedure or for what was made, ends it with `NoMemory`.
///
/// The run calls as many parse procedures as the rest has bytes, at most, or one where it has none. (Windows
/// Internals, Object Manager: parse methods; the steps: this profile)
pub fn run_parse<T: TypeSet>(
    alloc: Global,
    face: &T::Face,
    rest: &[u8],
) -> Outcome<T::Face, T::Inner>
    requires parses { (T.procedures).parses ((T.procedures).kind_of face.now) ≡ true }
    ensures ends { MatchOption (outcome_of result) (Unit {0}) (λ end.
        ParseEnds T.procedures face.now rest.now end) }
    ensures idle { IfMade result (λ _ inner. T.idle inner) }
{
    let mut step = answered::<T>(alloc, face, rest);
    while let Step::Onward(next, left) = step {
        step = answered::<T>(alloc, &next, left);
    }
    let Step::Over(outcome) = step else {
        unreachable!();
    };
    outcome
}

/// Where the answer of one parse procedure leads.
fn answered<'a, T: TypeSet>(
    alloc: Global,
    face: &T::Face,
    rest: &'a [u8],
) -> Step<'a, T::Face, T::Inner>
    requires parses { (T.procedures).parses ((T.procedures).kind_of face.now) ≡ true }
    ensures leads { Leads T.procedures face.now rest.now result }
    ensures shorter { IfOnward result (λ _ left. length left < length rest.now) }
    ensures idle { IfStepMade result (λ _ inner. T.idle inner) }
{
    laws::front_is_used::<T>();
    laws::parsed_idle::<T>();
    let Ok(answer) = T::parse(alloc, face, rest) else {
        return Step::Over(Outcome::NoMemory);
    };
    match answer {
        ParseAnswer::Itself => Step::Over(Outcome::Itself),
        ParseAnswer::Front { used, next, inner } => {
            if used < rest.len() {
                Step::Onward(next, &rest[used..])
            } else {
                Step::Over(made(alloc, next, inner))
            }
        }
        ParseAnswer::Reparse(text) => Step::Over(Outcome::Reparse(text)),
        ParseAnswer::Refused(code) => Step::Over(Outcome::Refused(code)),
    }
}

/// The end with an instance, where there is memory for its face.
fn made<F: Drop, I: Drop>(alloc: Global, face: F, inner: I) -> Outcome<F, I>
    ensures { IsMadeOf result face inner }
{
    match Arc::new(alloc, face) {
        Ok(face) => Outcome::Made(face, inner),
        Err(_) => Outcome::NoMemory,
    }
}

/// A parse run has one end. This holds of every lawful set; nothing is done when it runs. (this profile)
pub fn a_parse_run_has_one_end<T: TypeSet>()
    ensures { RunsHaveOneEnd T.procedures }
{}

/// Parse runs from faces that are found the same end alike. This holds of every lawful set; nothing is done
/// when it runs. (this profile)
pub fn same_faces_end_alike<T: TypeSet>()
    ensures { SameFacesEndAlike T.procedures }
{
    laws::same_answers::<T>();
}
