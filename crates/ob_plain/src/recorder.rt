//! A set that records the calls of another.

ghost use Rattle.std.specs.Prelude.{◌≡◌, ◌≢◌, ℕ, None, Some, IfOk, IfErr, IsOk};
ghost use Rattle.std.proofs.Common.{ap, ◌∙◌};
ghost use Rattle.ob_plain.specs.Counting.{counted};
ghost use Rattle.ob_plain.specs.Calls.{none_kept, noted};
ghost use Rattle.ob_plain.specs.Recorder.{recording_procedures, opened_by, IsRecordedIdle, part_of, kept_of, last_of};
ghost use Rattle.ob_plain.specs.Recorder.{serial_after, opened_call};
ghost use Rattle.ob_plain.specs.declared.recorder.Recorder.{Recorder};
ghost use Rattle.ob_plain.specs.declared.recorder.Recorded.{Recorded};
ghost use Rattle.ob_plain.specs.Fronts.{recorded_front, recorded_itself, recorded_idle};
ghost use Rattle.ob_plain.specs.Recorder.{unopened_answer};
ghost use Rattle.ob_types.specs.Parsing.{answer_of};

use crate::calls::CallList;
use crate::{Call, CallKind};
use ob_base::Fault;
use ob_types::{ParseAnswer, Reason, Refusal, TypeSet};
use std::alloc::{AllocError, Global};

/// A set of types with the first of its calls, as many as there is room for, and the number of the
/// others. An open that is refused is none of them. No call takes memory for that: the room is
/// reserved when the recorder is made. (this profile)
#[derive(Debug, Drop)]
pub struct Recorder<T> {
    part: T,
    last: u64,
    calls: CallList,
}

/// The part of an object of a recorded set that the procedures change. (this profile)
#[derive(Debug, Drop)]
pub struct Recorded<I> {
    /// Its part in the set below.
    pub part: I,
    /// The serial that its first accepted open drew, from 1; 0 before. At the greatest u64, that one
    /// or none that is its own.
    pub serial: u64,
}

impl<T: Drop> Recorder<T> {
    /// A recorder with no call yet, and room for so many. Out of memory for the room is the only
    /// error; the set is then dropped. No room needs no memory.
    pub fn new(alloc: Global, part: T, room: usize) -> Result<Recorder<T>, Fault>
        ensures part { IfOk result (λ recorder. part_of recorder ≡ part) }
        ensures calls { IfOk result (λ recorder. kept_of recorder ≡ none_kept room) }
        ensures serials { IfOk result (λ recorder. last_of recorder ≡ 0) }
        ensures no_room { room ≡ 0 → IsOk result }
        ensures memory { IfErr result (λ fault. fault ≡ Fault.Memory) }
    {
        let calls = CallList::new(alloc, room)?;
        Ok(Recorder {
            part,
            last: 0,
            calls,
        })
    }
}

impl<T> Recorder<T> {
    /// The calls that there was room for, the first of them first.
    pub fn calls(&self) -> &[Call]
        ensures { result.now ≡ (kept_of self.now).calls }
    {
        self.calls.as_slice()
    }

    /// The number of the calls after them, which stops at the greatest u64.
    pub fn lost(&self) -> u64
        ensures { result ≡ (kept_of self.now).lost }
    {
        self.calls.lost()
    }
}

/// Every call is handed to the set below, whose answers and laws this set has; then it is noted with
/// the object's serial. An open that is refused is not noted, and draws no serial. (this profile)
impl<T: TypeSet> TypeSet for Recorder<T> {
    type Kind = T::Kind;

    type Face = T::Face;

    type Inner = Recorded<T::Inner>;

    ghost procedures = { recording_procedures T.procedures };

    ghost idle = { IsRecordedIdle T.idle };

    fn type_name(kind: T::Kind) -> &'static str {
        T::type_name(kind)
    }

    fn kind_of(face: &T::Face) -> T::Kind {
        T::kind_of(face)
    }

    fn parses(kind: T::Kind) -> bool {
        T::parses(kind)
    }

    fn same(a: &T::Face, b: &T::Face) -> bool {
        T::same(a, b)
    }

    fn parse(
        alloc: Global,
        face: &T::Face,
        rest: &[u8],
    ) -> Result<ParseAnswer<T::Face, Recorded<T::Inner>>, AllocError> {
        Ok(unopened(T::parse(alloc, face, rest)?))
    }

    fn make(
        alloc: Global,
        kind: T::Kind,
        args: &[u8],
    ) -> Result<(T::Face, Recorded<T::Inner>), Refusal> {
        let (face, part) = T::make(alloc, kind, args)?;
        Ok((face, Recorded { part, serial: 0 }))
    }

    fn on_open(&mut self, inner: &mut Recorded<T::Inner>, reason: Reason) -> Result<(), u16> {
        self.part.on_open(&mut inner.part, reason)?;
        if inner.serial == 0 {
            self.last = self.last.saturating_add(1);
            inner.serial = self.last;
        }
        self.calls.note(Call {
            serial: inner.serial,
            what: CallKind::Opened(reason),
        });
        Ok(())
    }

    fn on_close(&mut self, inner: &mut Recorded<T::Inner>, process_left: u32, system_left: u32) {
        self.part
            .on_close(&mut inner.part, process_left, system_left);
        self.calls.note(Call {
            serial: inner.serial,
            what: CallKind::Closed {
                process_left,
                system_left,
            },
        });
    }

    fn on_delete(&mut self, inner: Recorded<T::Inner>) {
        let Recorded { part, serial } = inner;
        self.part.on_delete(part);
        self.calls.note(Call {
            serial,
            what: CallKind::Deleted,
        });
    }

    ghost refused_open = { λ recorder inner reason k told.
        ap (λ left.
        opened_by
        ((T.procedures).refuses_to_open recorder.part inner.part reason) recorder inner reason left)
        (T.refused_open recorder.part inner.part reason k told) ∙ ap (λ refusal.
        opened_by refusal recorder inner reason (recorder.part, inner.part)) told };

    ghost made_idle = { T.made_idle };

    ghost closed_idle = { λ recorder inner. T.closed_idle recorder.part inner.part };

    ghost front_is_used = { recorded_front T.procedures T.front_is_used };

    ghost itself_at_end = { recorded_itself T.procedures T.itself_at_end };

    ghost parsed_idle = { recorded_idle T.procedures T.idle T.parsed_idle };

    ghost own_face = { T.own_face };

    ghost same_answers = { λ a b rest told. ap unopened_answer (T.same_answers a b rest told) };

    ghost one_kind = { T.one_kind };

    ghost own_kind = { T.own_kind };

    ghost equal_kinds = { T.equal_kinds };
}

/// The answer of a parse procedure, where an instance that it makes was not opened yet.
fn unopened<F, I>(answer: ParseAnswer<F, I>) -> ParseAnswer<F, Recorded<I>>
    ensures { answer_of result ≡ unopened_answer (answer_of answer) }
{
    match answer {
        ParseAnswer::Itself => ParseAnswer::Itself,
        ParseAnswer::Front { used, next, inner } => ParseAnswer::Front {
            used,
            next,
            inner: Recorded {
                part: inner,
                serial: 0,
            },
        },
        ParseAnswer::Reparse(text) => ParseAnswer::Reparse(text),
        ParseAnswer::Refused(code) => ParseAnswer::Refused(code),
    }
}

/// An open that the set below accepts is noted, and one that it refuses changes nothing. The first that
/// is accepted of an object draws the next serial; later ones leave it. This holds of every lawful set;
/// nothing is done when it runs. (this profile)
pub fn accepted_opens_are_noted<T: TypeSet>()
    ensures below { (recorder : Recorder T) (inner : Recorded T.Inner) (reason : Reason)
        → part_of ((recording_procedures T.procedures).opened recorder inner reason).0
        ≡ ((T.procedures).opened (part_of recorder) inner.part reason).0 }
    ensures noted { (recorder : Recorder T) (inner : Recorded T.Inner) (reason : Reason)
        → (T.procedures).refuses_to_open (part_of recorder) inner.part reason ≡ None
        → kept_of ((recording_procedures T.procedures).opened recorder inner reason).0
        ≡ noted (kept_of recorder) (opened_call (serial_after
        (last_of recorder) inner.serial) reason) }
    ensures refused { (recorder : Recorder T) (inner : Recorded T.Inner) (reason : Reason) (k : ℕ)
        → (T.procedures).refuses_to_open (part_of recorder) inner.part reason ≡ Some k
        → (recording_procedures T.procedures).opened recorder inner reason ≡ (recorder, inner) }
    ensures first { (recorder : Recorder T) (inner : Recorded T.Inner) (reason : Reason)
        → (T.procedures).refuses_to_open (part_of recorder) inner.part reason ≡ None → inner.serial
        ≡ 0 → ((recording_procedures T.procedures).opened recorder inner reason).1.serial
        ≡ counted (last_of recorder) }
    ensures later { (recorder : Recorder T) (inner : Recorded T.Inner) (reason : Reason)
        → inner.serial ≢ 0
        → ((recording_procedures T.procedures).opened recorder inner reason).1.serial
        ≡ inner.serial }
{}
