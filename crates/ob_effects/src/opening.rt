//! Opens under a variable: the command that begins one, and the reply that is kept of it.

ghost use Rattle.std.specs.Prelude.{◌≡◌, IfOk, OnOk};
ghost use Rattle.ob_model.specs.declared.reply.Answer.TheVariants.{Done};
ghost use Rattle.ob_parts.specs.Parts.{name_seen, text_of};
ghost use Rattle.ob_parts.specs.Text.{IsText};
ghost use Rattle.ob_requests.specs.Commands.{IsOpenObject};
ghost use Rattle.ob_requests.specs.Tables.{variables_in, HasRoom};
ghost use Rattle.ob_effects.specs.Waiting.{variables_answered};

use ob_base::Proc;
use ob_lines::{KindForm, NameForm, Request};
use ob_model::{Command, Reply};
use ob_requests::{Variables, command_of, given_handle};
use ob_standard::StandardKind;
use std::alloc::AllocError;

/// The request of an open: the kind that is wanted, the name and the flags. (this profile)
pub type OpenForm<'a> = (Option<KindForm>, NameForm<&'a [u8]>, u32);

/// The command of an open of a process, with room under the variable for its reply or its ticket. The variables stay as they were. The only
/// error is out of memory. (this profile)
pub fn open_command(
    variables: &mut Variables,
    process: Proc,
    asked: OpenForm<'_>,
    variable: &[u8],
) -> Result<Command<StandardKind>, AllocError>
    requires text { IsText (text_of (name_seen (asked.1))) }
    ensures command { IfOk result (IsOpenObject (asked.entry.0) (name_seen (asked.entry.1))
        (asked.entry.2) ((variables_in variables.old).values process)) }
    ensures room { OnOk result (HasRoom variables.new.handles process variable.now) }
    ensures same { variables_in variables.new ≡ variables_in variables.old }
{
    let (want, name, attrs) = asked;
    let request = Request::OpenObject {
        want,
        name,
        attrs,
        variable,
    };
    let (command, _) = command_of(variables, process, &request)?;
    Ok(command)
}

/// Keeps the reply of an open under its variable: the handle that was given, or 0, and no open waits there any longer. (this profile)
pub fn keep_reply(variables: &mut Variables, process: Proc, variable: &[u8], reply: &Reply)
    requires room { HasRoom variables.old.handles process variable.now }
    ensures { variables_in variables.new
        ≡ variables_answered (variables_in variables.old) process variable.now (Done reply.now) }
{
    variables.set_handle(process, variable, given_handle(&reply.given));
    variables.clear_ticket(process, variable);
}
