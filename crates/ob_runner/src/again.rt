//! Steps that are made again, as a history has them.

ghost use Rattle.std.specs.Prelude.{◌≡◌, IfOk, OnOk};
ghost use Rattle.ob_model.specs.Step.{Step};
ghost use Rattle.ob_runner.specs.Begun.{answer_in, AreAwaited};
ghost use Rattle.ob_runner.specs.Repeated.{AreAllKept, MayBe};

use crate::opens::begin_open;
use crate::told::{drop_open_as, end_open_as};
use crate::{Begun, Core, Waits};
use ob_base::Status;
use ob_handles::HandleTable;
use ob_model::choices::opens_wait_by_their_tickets;
use ob_model::{Answer, Event, Given, Reply};
use ob_types::TypeSet;
use std::alloc::{AllocError, Global};

/// Makes a step of a history again: a command is started, and an open that is pending is resumed or given up as the
/// history says of its parse. An open that waits then is kept. It answers what the step does; only the value of a new
/// handle may be another one than the history has.
///
/// The parses of all pending opens must be kept, and the open of a resume or an abandon be pending. The only fault is
/// out of memory, and then other steps may have been made that give up an open; the parses that are kept are still
/// awaited.
///
/// Source: Windows Internals, Object Manager (parse methods); that a parse is run between two steps is this profile.
pub fn repeat_step<T: TypeSet, H: HandleTable>(
    core: &mut Core<T, H>,
    waits: &mut Waits<T>,
    alloc: Global,
    step: &Event<T::Kind>,
) -> Result<Answer, AllocError>
    requires awaited { AreAwaited core.old waits.old }
    requires all { AreAllKept core.old waits.old }
    requires possible { MayBe core.old step.now }
    ensures awaited { AreAwaited core.new waits.new }
    ensures step { IfOk result (λ answer. Step T.procedures core.old step.now answer core.new) }
    ensures all { OnOk result (AreAllKept core.new waits.new) }
{
    opens_wait_by_their_tickets::<T::Kind, T, T::Face, T::Inner>();
    match step {
        Event::Start { process, command } => {
            Ok(answer_of(begin_open(core, waits, *process, command)?))
        }
        Event::Resume { ticket, parse } => {
            Ok(answer_of(end_open_as(core, waits, alloc, *ticket, *parse)?))
        }
        Event::Abandon { ticket, parse } => {
            drop_open_as(core, waits, alloc, *ticket, *parse)?;
            Ok(Answer::Done(Reply {
                status: Status::Success,
                given: Given::Nothing,
            }))
        }
    }
}

/// The state of an open, as an answer.
fn answer_of(begun: Begun) -> Answer
    ensures { result ≡ answer_in begun }
{
    match begun {
        Begun::Replied(reply) => Answer::Done(reply),
        Begun::Waits(ticket) => Answer::Ticket(ticket),
    }
}
