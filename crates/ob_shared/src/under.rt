//! Steps under the lock.

ghost use Rattle.std.specs.Prelude.{◌≡◌, IfOk, IfErr, OnErr};
ghost use Rattle.ob_model.specs.declared.reply.Event.TheVariants.{Start, Resume};
ghost use Rattle.ob_types.specs.Pending.{run_of_end};
ghost use Rattle.ob_types.specs.Parse.{asked_of};
ghost use Rattle.ob_shared.specs.Later.{IsLater};
ghost use Rattle.ob_shared.specs.Told.{IsCutOff, IsGivenUp, IsGivenUpAfter, IsNotBrought, IsNotStarted, IsSealed, IsTold, IsUnsealed};
ghost use Rattle.std.specs.Arc.{arc_value};

use ob_base::{Fault, Proc};
use ob_core::HandleTable;
use ob_locked::{
    Asked, Locked, Parsed, Pass, Pending, Prepared, Segment, Started, seal_step, step,
};
use ob_model::Command;
use ob_types::TypeSet;
use std::alloc::{AllocError, Global};
use std::sync::Arc;
use std::sync::ledger::Ledger;

/// Starts a command with prepared memory.
pub(crate) fn start_under<T: TypeSet, H: HandleTable, L: Ledger>(
    alloc: Global,
    locked: &mut Locked<T, H, L>,
    pass: &mut Pass<T::Kind, L>,
    process: Proc,
    command: &Command<T::Kind>,
    prepared: Result<Prepared<T::Kind>, AllocError>,
) -> Result<Started<T>, Fault>
    requires { IfOk prepared (λ prepared. prepared ≡ command.now) }
    ensures told { IfOk result (λ started.
        IsTold T.procedures pass.old (Start process command.now) started pass.new) }
    ensures unmade { OnErr result (pass.new ≡ pass.old) }
    ensures fault { IfErr result (λ fault. IsNotStarted T.procedures pass.old fault) }
    ensures later { IsLater T.procedures locked.old locked.new }
{
    locked.is_kept();
    locked.start(alloc, pass, process, command, prepared)
}

/// Brings a parse.
pub(crate) fn resume_under<'a, T: TypeSet, H: HandleTable, L: Ledger>(
    alloc: Global,
    locked: &'a mut Locked<T, H, L>,
    pass: &'a mut Pass<T::Kind, L>,
    parsed: Parsed<T>,
) -> Result<Started<T>, (Fault, Parsed<T>)>
    ensures told { IfOk result (λ started.
        IsTold T.procedures pass.old (Resume parsed.ticket
        (run_of_end parsed.outcome)) started pass.new) }
    ensures unmade { OnErr result (pass.new ≡ pass.old) }
    ensures fault { IfErr result (λ back.
        IsNotBrought T.procedures pass.old (asked_of parsed) (back.0)) }
    ensures back { IfErr result (λ back. back.1 ≡ parsed) }
    ensures later { IsLater T.procedures locked.old locked.new }
{
    locked.is_kept();
    let asked: Asked<'a, T> = Asked::Resume(parsed);
    match step(alloc, locked, pass, asked) {
        Ok(started) => Ok(started),
        Err((fault, Some(parsed))) => Err((fault, parsed)),
        Err((_, None)) => unreachable!(),
    }
}

/// Abandons an open.
pub(crate) fn abandon_under<'a, T: TypeSet, H: HandleTable, L: Ledger>(
    alloc: Global,
    locked: &'a mut Locked<T, H, L>,
    pass: &'a mut Pass<T::Kind, L>,
    pending: Pending<T>,
)
    ensures given_up { IsGivenUp T.procedures pass.old pending pass.new }
    ensures after { IsGivenUpAfter T.procedures locked.old pass.old pending pass.new }
    ensures later { IsLater T.procedures locked.old locked.new }
{
    locked.is_kept();
    let asked: Asked<'a, T> = Asked::Abandon(pending);
    match step(alloc, locked, pass, asked) {
        Ok(Started::Done(_reply)) => {}
        Ok(Started::Parsing(_parsing)) => unreachable!(),
        Err((_, None)) => {}
        Err((_, Some(_parsed))) => unreachable!(),
    }
}

/// Brings a parse, or abandons its open.
pub(crate) fn bring_under<'a, T: TypeSet, H: HandleTable, L: Ledger>(
    alloc: Global,
    locked: &'a mut Locked<T, H, L>,
    pass: &'a mut Pass<T::Kind, L>,
    parsed: Parsed<T>,
) -> Result<Started<T>, Fault>
    ensures told { IfOk result (λ started.
        IsTold T.procedures pass.old (Resume parsed.ticket
        (run_of_end parsed.outcome)) started pass.new) }
    ensures cut_off { IfErr result (λ fault.
        IsCutOff T.procedures pass.old parsed fault pass.new) }
    ensures later { IsLater T.procedures locked.old locked.new }
{
    locked.is_kept();
    let asked: Asked<'a, T> = Asked::Resume(parsed);
    match step(alloc, &mut *locked, &mut *pass, asked) {
        Ok(started) => Ok(started),
        Err((fault, Some(parsed))) => {
            abandon_under(alloc, locked, pass, Pending::Run(parsed));
            Err(fault)
        }
        Err((_, None)) => unreachable!(),
    }
}

/// Seals the open segment.
pub(crate) fn seal_under<T: TypeSet, H: HandleTable, L: Ledger>(
    alloc: Global,
    locked: &mut Locked<T, H, L>,
) -> Result<Arc<Segment<T::Kind>>, Fault>
    ensures sealed { IfOk result (λ segment. IsSealed T.procedures (arc_value segment)) }
    ensures fault { IfErr result (λ fault. IsUnsealed T.procedures fault) }
    ensures later { IsLater T.procedures locked.old locked.new }
{
    locked.is_kept();
    seal_step(alloc, locked)
}
