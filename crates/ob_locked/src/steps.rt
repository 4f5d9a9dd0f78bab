//! The one way in which the state under the lock changes.

ghost use Rattle.std.specs.Prelude.{◌≡◌, IfOk, IfErr, OnErr, OnOk};
ghost use Rattle.ob_opens.specs.Waiting.{IsParseOf};
ghost use Rattle.ob_locked.specs.Answers.{answer_in, IfWaits};
ghost use Rattle.ob_locked.specs.Asked.{event_of, handed_back, IsAdmitted, IsUnmade};
ghost use Rattle.ob_locked.specs.Steps.{sealed_then, IsMade, IsNotSealed, MaySeal};
ghost use Rattle.std.specs.Arc.{arc_value};
ghost use Rattle.ob_segments.specs.Journal.{open_segment};

use crate::{Locked, Parsed, Pass, Pending, Prepared, Started};
use ob_base::{Fault, Proc, Status};
use ob_core::HandleTable;
use ob_entries::Segment;
use ob_model::{Command, Given, Reply};
use ob_types::TypeSet;
use std::alloc::Global;
use std::sync::Arc;
use std::sync::ledger::Ledger;

/// The step that a caller asks for. (this profile)
pub enum Asked<'a, T: TypeSet> {
    /// A process begins a command.
    Start(Proc, &'a Command<T::Kind>),
    /// A pending open goes on with its parse.
    Resume(Parsed<T>),
    /// A pending open is abandoned.
    Abandon(Pending<T>),
}

/// Makes the step that a caller asks for: the machine's step, with its entry at the end of the journal and the same as the pass's last
/// receipt. An abandon answers `Success`.
///
/// At a fault nothing has changed, and the parse of a resume is returned. A start fails with `InvalidParameter` if the pass is a
/// stranger's: the journal doesn't have its last receipt at that number; then with `JournalFull` if fewer than 34 places of the open
/// segment are neither used nor reserved; then with `Memory` if out of memory. A resume fails with `InvalidParameter` if the pass or the
/// parse is a stranger's, then with `Memory`. An abandon takes no memory and doesn't test the pass; it fails with `InvalidParameter` if
/// the parse is a stranger's, which it drops. (this profile)
pub fn step<T: TypeSet, H: HandleTable, L: Ledger>(
    alloc: Global,
    locked: &mut Locked<T, H, L>,
    pass: &mut Pass<T::Kind, L>,
    asked: Asked<'_, T>,
) -> Result<Started<T>, (Fault, Option<Parsed<T>>)>
    ensures made { IfOk result (λ started.
        IsMade T.procedures locked.old pass.old (event_of asked.entry)
        (answer_in started) locked.new pass.new) }
    ensures admitted { OnOk result (IsAdmitted T.procedures locked.old pass.old asked.entry) }
    ensures waits { IfOk result (λ started. IfWaits started (IsParseOf locked.new.state)) }
    ensures unmade { OnErr result ((locked.new ≡ locked.old) × (pass.new ≡ pass.old)) }
    ensures fault { IfErr result (λ back.
        IsUnmade T.procedures locked.old pass.old asked.entry (back.0)) }
    ensures back { IfErr result (λ back. back.1 ≡ handed_back asked.entry) }
{
    match asked {
        Asked::Start(process, command) => {
            let prepared = Prepared::new(alloc, command);
            match locked.start(alloc, pass, process, command, prepared) {
                Ok(started) => Ok(started),
                Err(fault) => Err((fault, None)),
            }
        }
        Asked::Resume(parsed) => match locked.resume(alloc, pass, parsed) {
            Ok(started) => Ok(started),
            Err((fault, parsed)) => Err((fault, Some(parsed))),
        },
        Asked::Abandon(pending) => {
            if !locked.abandon(pass, pending) {
                return Err((Fault::Refused(Status::InvalidParameter), None));
            }
            Ok(Started::Done(Reply {
                status: Status::Success,
                given: Given::Nothing,
            }))
        }
    }
}

/// Seals the journal's open segment and returns it. It becomes the last sealed segment, and an empty one is open, with the memory of all
/// reserved places. A seal isn't a step: it adds no entry and no receipt, and tests no pass.
///
/// At a fault nothing has changed. It is `InvalidParameter` if the open segment is empty, then `InsufficientResources` if 4,095 segments
/// are sealed, then `Memory` if out of memory. (this profile)
pub fn seal_step<T: TypeSet, H: HandleTable, L: Ledger>(
    alloc: Global,
    locked: &mut Locked<T, H, L>,
) -> Result<Arc<Segment<T::Kind>>, Fault>
    ensures sealed { OnOk result (locked.new ≡ sealed_then locked.old) }
    ensures admitted { OnOk result (MaySeal locked.old.journal) }
    ensures segment { IfOk result (λ segment. arc_value segment
        ≡ open_segment locked.old.journal) }
    ensures unsealed { OnErr result (locked.new ≡ locked.old) }
    ensures fault { IfErr result (λ fault. IsNotSealed locked.old.journal fault) }
{
    locked.seal(alloc)
}
