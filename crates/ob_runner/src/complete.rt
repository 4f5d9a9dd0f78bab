//! A command from its start to its reply.

ghost use Rattle.std.specs.Prelude.{◌≡◌, List, IsOk, IfOk, OnErr};
ghost use Rattle.ob_model.specs.declared.reply.Event.TheVariants.{Start, Resume};
ghost use Rattle.ob_model.specs.declared.reply.ParseRun.{ParseRun};
ghost use Rattle.ob_space.specs.Early.{TakesNoMemory};
ghost use Rattle.ob_opens.specs.Waiting.{IsParseOf};
ghost use Rattle.ob_runner.specs.Completes.{Made, HasRun, Completes, GivesUp, Falters};

use ob_base::Proc;
use ob_core::{Core, Started};
use ob_handles::HandleTable;
use ob_model::{Command, Reply};
use ob_types::laws::own_face;
use ob_types::{Parsing, Pending, TypeSet};
use std::alloc::{AllocError, Global};

/// Runs a command of a process to its reply. Where an open reaches an object whose kind parses, the parse is run and
/// brought, and so is each that the open waits for then: at most 33, since each takes one of the 32 reparses of a
/// name. Nothing else is done between these steps.
///
/// The only fault is out of memory. Where it came before the first step, nothing has changed, and the command is none that
/// is refused before anything grows; where an open waits for a parse, that open is given up, which is a step of its own.
/// There is none for a close, the end of a process, and making an object permanent or temporary. A parse that finds no memory is no fault: its open is answered
/// `NoMemory`.
///
/// Source: Windows Internals, Object Manager (parse methods); that a parse is run between two steps is this profile.
pub fn run_command<T: TypeSet, H: HandleTable>(
    core: &mut Core<T, H>,
    alloc: Global,
    process: Proc,
    command: &Command<T::Kind>,
) -> Result<Reply, AllocError>
    ensures done { IfOk result (λ reply. (steps : List (Made T.Kind))
        × Completes T.procedures (Start process command.now) steps core.old reply core.new) }
    ensures faltered { OnErr result ((steps : List (Made T.Kind))
        × Falters T.procedures (Start process command.now) steps core.old core.new) }
    ensures without_memory { TakesNoMemory command.now → IsOk result }
{
    match core.start(process, command) {
        Ok(Started::Done(reply)) => Ok(reply),
        Ok(Started::Parsing(parsing)) => run_parses(core, alloc, parsing),
        Err(_) => Err(AllocError),
    }
}

/// Runs the parse that an open waits for, and those that follow it, to the reply. Out of memory, the open is given
/// up.
fn run_parses<T: TypeSet, H: HandleTable>(
    core: &mut Core<T, H>,
    alloc: Global,
    parsing: Parsing<T>,
) -> Result<Reply, AllocError>
    requires awaited { IsParseOf core.old parsing }
    ensures done { IfOk result (λ reply. (steps : List (Made T.Kind)) × (parse : ParseRun)
        × HasRun parse
        × Completes T.procedures (Resume parsing.ticket parse) steps core.old reply core.new) }
    ensures faltered { OnErr result ((steps : List (Made T.Kind))
        × GivesUp T.procedures parsing.ticket steps core.old core.new) }
{
    own_face::<T>();
    core.state_is_sound();
    match core.resume(parsing.run(alloc)) {
        Ok(Started::Done(reply)) => Ok(reply),
        Ok(Started::Parsing(next)) => run_parses(core, alloc, next),
        Err((_, parsed)) => {
            core.abandon(Pending::Run(parsed));
            Err(AllocError)
        }
    }
}
