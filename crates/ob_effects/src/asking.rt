//! A child, with the variables that it begins with.

ghost use Rattle.std.specs.Prelude.{◌≡◌, ◌⊎◌, true, IfOk, OnErr};
ghost use Rattle.ob_model.specs.declared.command.Command.TheVariants.{NewProcess};
ghost use Rattle.ob_model.specs.declared.reply.Event.TheVariants.{Start};
ghost use Rattle.ob_model.specs.Processes.{values_in};
ghost use Rattle.ob_runner.specs.Completes.{Completes, Falters};
ghost use Rattle.ob_standard.specs.Standard.{standard};
ghost use Rattle.ob_requests.specs.Commands.{with_child};
ghost use Rattle.ob_requests.specs.Tables.{variables_in, value_in, has_variable, DifferInValues};
ghost use Rattle.ob_requests.specs.Variables.{handed_on};
ghost use Rattle.ob_effects.specs.Waiting.{Steps};

use ob_base::{Handle, Proc};
use ob_lines::Change;
use ob_model::{Command, Given, Reply};
use ob_requests::{Table, Variable, Variables, keep};
use ob_standard::StandardKind;
use ob_standard_core::StandardCore;
use std::alloc::AllocError;

// Runs a command that begins a child of a process, and sets the child's process variable, for which there is room: to the child, which has the
// variables that are handed on to it, or to 0.
pub(crate) fn begin_child(
    core: &mut StandardCore,
    variables: &mut Variables,
    process: Proc,
    command: &Command<StandardKind>,
    variable: &[u8],
    inherit: bool,
) -> Result<Reply, AllocError>
    requires child { command.now ≡ NewProcess inherit }
    requires room { has_variable variables.old.processes variable.now ≡ true }
    ensures done { IfOk result (λ reply. (steps : Steps)
        × Completes standard (Start process command.now) steps core.old reply core.new) }
    ensures wanting { OnErr result ((core.new ≡ core.old) ⊎ ((steps : Steps)
        × Falters standard (Start process command.now) steps core.old core.new)) }
    ensures kept { OnErr result (variables_in variables.new ≡ variables_in variables.old) }
    ensures begun { IfOk result (λ reply. variables_in variables.new
        ≡ with_child (variables_in variables.old) process variable.now inherit reply.given) }
{
    core.state_is_sound();
    let next = core.next_process();
    variables.room_for_variables(next)?;
    let own = variables.variables_for_child(process, next, inherit)?;
    let reply = core.run(variables.alloc, process, command)?;
    if let Given::Process(child, _) = &reply.given {
        variables.begin(*child, handed_on(core, *child, own));
    }
    let process_variable = Change::SetsProcess {
        process: variable,
        inherit,
    };
    variables.apply(process, process_variable, &reply);
    Ok(reply)
}

// The variables of a child, from those that it may get: those whose values it holds.
fn handed_on(core: &StandardCore, child: Proc, own: Table<Variable>) -> Table<Variable>
    ensures values { value_in result ≡ handed_on (value_in own) true (values_in core.now child) }
    ensures others { DifferInValues own result }
{
    let mut own = own;
    keep(&mut own, |value| core.holds(child, Handle(value)));
    own
}
