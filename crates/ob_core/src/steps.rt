//! The step of each command.

ghost use Rattle.std.specs.Prelude.{◌≡◌, true, IsOk, IfOk, IfErr, OnErr};
ghost use Rattle.ob_model.specs.declared.reply.Event.TheVariants.{Start};
ghost use Rattle.ob_model.specs.declared.reply.Answer.TheVariants.{Done};
ghost use Rattle.ob_model.specs.Step.{Step};
ghost use Rattle.ob_space.specs.Early.{TakesNoMemory, is_refused_early};
ghost use Rattle.ob_space.specs.Found.{IsRefusedAtFound};
ghost use Rattle.ob_space.specs.Orderly.{IsBetweenSteps, IsOrderly};
ghost use Rattle.ob_core.specs.AtOnce.{IsNoOpen};
ghost use Rattle.ob_opens.specs.Waiting.{answer_of, IfParsing, IsParseOf};

use ob_base::Proc;
use ob_commands::{
    Making, PageRequest, close, create, duplicate, exit_process, link_to, new_process, object_of,
    query_directory, query_link, query_name, set_device_map,
};
use ob_handles::HandleTable;
use ob_life::set_permanence;
use ob_model::{Command, Reply, Wanted};
use ob_opens::{Started, open_name, type_wanted};
use ob_space::Space;
use ob_types::TypeSet;
use std::alloc::AllocError;

/// Makes the step of a command, and says how it ends.
pub(crate) fn step_for<T: TypeSet, H: HandleTable>(
    space: &mut Space<T, H>,
    process: Proc,
    command: &Command<T::Kind>,
) -> Result<Started<T>, AllocError>
    requires between { IsBetweenSteps T.idle space.old }
    ensures orderly { IsOrderly T.idle space.new }
    ensures step { IfOk result (λ started.
        Step T.procedures space.old (Start process command.now) (answer_of started) space.new) }
    ensures parse { IfOk result (λ started. IfParsing started (IsParseOf space.new)) }
    ensures without_memory { TakesNoMemory command.now → IsOk result }
    ensures early { is_refused_early space.old process command.now ≡ true → IsOk result }
    ensures found { IsRefusedAtFound T.procedures space.old process command.now → IsOk result }
    ensures err { OnErr result (space.new ≡ space.old) }
{
    match command {
        Command::OpenDirectory { root, name, attrs } => {
            let wanted = Wanted::Directory;
            open_name(space, process, *root, name.as_slice(), *attrs, wanted)
        }
        Command::OpenLink { root, name, attrs } => {
            let wanted = Wanted::Link;
            open_name(space, process, *root, name.as_slice(), *attrs, wanted)
        }
        Command::OpenObject {
            root,
            name,
            attrs,
            want,
        } => {
            let wanted = type_wanted(*want);
            open_name(space, process, *root, name.as_slice(), *attrs, wanted)
        }
        _ => match reply_for(space, process, command) {
            Ok(reply) => Ok(Started::Done(reply)),
            Err(fault) => Err(fault),
        },
    }
}

/// Makes the step of a command that is no open by name, and answers its reply.
fn reply_for<T: TypeSet, H: HandleTable>(
    space: &mut Space<T, H>,
    process: Proc,
    command: &Command<T::Kind>,
) -> Result<Reply, AllocError>
    requires between { IsBetweenSteps T.idle space.old }
    requires no_open { IsNoOpen command.now }
    ensures orderly { IsOrderly T.idle space.new }
    ensures step { IfOk result (λ reply.
        Step T.procedures space.old (Start process command.now) (Done reply) space.new) }
    ensures without_memory { TakesNoMemory command.now → IsOk result }
    ensures early { is_refused_early space.old process command.now ≡ true → IsOk result }
    ensures found { IsRefusedAtFound T.procedures space.old process command.now → IsOk result }
    ensures err { OnErr result (space.new ≡ space.old) }
{
    match command {
        Command::CreateDirectory { place, attrs } => {
            let making = Making::Directory;
            create(space, process, place, *attrs, None, making)
        }
        Command::CreateShadowed {
            place,
            attrs,
            shadow,
        } => {
            let making = Making::Directory;
            create(space, process, place, *attrs, Some(*shadow), making)
        }
        Command::CreateLink {
            place,
            attrs,
            target,
        } => {
            let making = link_to(target);
            create(space, process, place, *attrs, None, making)
        }
        Command::CreateObject {
            place,
            attrs,
            kind,
            args,
        } => {
            let making = object_of(*kind, args);
            create(space, process, place, *attrs, None, making)
        }
        Command::OpenDirectory { .. } | Command::OpenLink { .. } | Command::OpenObject { .. } => {
            unreachable!()
        }
        Command::Close { handle } => Ok(close(space, process, *handle)),
        Command::QueryLink { handle } => query_link(space, process, *handle),
        Command::QueryName { handle } => query_name(space, process, *handle),
        Command::QueryDirectory {
            handle,
            context,
            room,
            single,
            restart,
        } => {
            let request = PageRequest {
                context: *context,
                room: *room,
                single: *single,
                restart: *restart,
            };
            query_directory(space, process, *handle, request)
        }
        Command::Duplicate {
            handle,
            to,
            inherit,
        } => duplicate(space, process, *handle, *to, *inherit),
        Command::MakeTemporary { handle } => Ok(set_permanence(space, process, *handle, false)),
        Command::MakePermanent { handle } => Ok(set_permanence(space, process, *handle, true)),
        Command::SetDeviceMap { handle } => set_device_map(space, process, *handle),
        Command::NewProcess { inherit } => new_process(space, process, *inherit),
        Command::ExitProcess => Ok(exit_process(space, process)),
    }
}
