//! The value of a new handle, as a line says it.

ghost use Rattle.std.specs.Prelude.{◌≡◌, ℕ, IfNone, IfSome};
ghost use Rattle.std.specs.Option.{option_map};
ghost use Rattle.ob_model.specs.Choice.{answer_under, given_under as given_of, receiver_of};
ghost use Rattle.ob_model.specs.Alike.{handle_given, receiver};
ghost use Rattle.ob_model.specs.PendingOpens.{pending_of};
ghost use Rattle.ob_model.specs.Grants.{IsHandleValue};
ghost use Rattle.ob_journal.specs.declared.choice.Choice.{Choice as SomeChoice};
ghost use Rattle.ob_journal.specs.Played.{IsTaken, MayChoose, MayChooseNone, value_said};

use ob_base::{Handle, Proc};
use ob_model::{Answer, Command, Event, Given, Reply};
use ob_reader::{Gift, Line, Said, is_said};
use ob_standard::StandardKind;
use ob_standard_core::StandardCore;

/// A value for the handle that a step gives, and the process that gets it.
#[derive(Clone, Copy, PartialEq, Eq, Debug)]
pub(crate) struct Choice {
    /// The process that gets the handle.
    pub(crate) process: Proc,
    /// The value: a multiple of four that the process doesn't use.
    pub(crate) value: Handle,
}

/// The value that a line says, where the process that gets the handle doesn't use it; none where the line says no such
/// value. Takes no memory.
pub(crate) fn choice_of(core: &StandardCore, line: &Line) -> Option<Choice>
    ensures free { IfSome result (λ choice. MayChoose core.now line.now choice) }
    ensures none { IfNone result (MayChooseNone core.now line.now) }
{
    let value = handle_value(value_of(&line.reply)?)?;
    let process = receiver_for(core, &line.step)?;
    (!core.holds(process, value)).then_some(Choice { process, value })
}

// The value of the handle that a line says is given.
fn value_of(said: &Said) -> Option<u64>
    ensures { result ≡ value_said said.now }
{
    match said {
        Said::Done {
            status: _,
            gift: Gift::Handle(value),
        } => Some(*value),
        _ => None,
    }
}

// A number as the value of a handle: a multiple of four from 4 to 262,140.
fn handle_value(number: u64) -> Option<Handle>
    ensures value { IfSome result (λ value. (value ≡ number) × IsHandleValue value) }
    ensures none { IfNone result (IsHandleValue number → ⊥) }
{
    if number == 0 {
        return None;
    }
    if number > 262_140 {
        return None;
    }
    if number % 4 != 0 {
        return None;
    }
    Some(Handle(number as u32))
}

// The process that gets the handle which an event may give.
fn receiver_for(core: &StandardCore, event: &Event<StandardKind>) -> Option<Proc>
    ensures { result ≡ receiver_of core.now event.now }
{
    match event {
        Event::Start { process, command } => Some(receiver_in(*process, command)),
        Event::Resume { ticket, parse: _ } => core.asker(*ticket),
        Event::Abandon {
            ticket: _,
            parse: _,
        } => None,
    }
}

// The process that gets the handle which a command asks for.
fn receiver_in(process: Proc, command: &Command<StandardKind>) -> Proc
    ensures { result ≡ receiver process command.now }
{
    match command {
        Command::Duplicate {
            handle: _,
            to,
            inherit: _,
        } => *to,
        _ => process,
    }
}

/// The value that may be chosen and the one that an answer gave, where the line says the answer with the other value in
/// place of that one. Takes no memory.
pub(crate) fn taken(line: &Line, choice: Option<Choice>, answer: Answer) -> Option<(Choice, Handle)>
    ensures taken { IfSome result (λ taken. IsTaken line.now choice answer (taken.0) (taken.1)) }
    ensures none { IfNone result ((other : SomeChoice) (chosen : ℕ)
        → IsTaken line.now choice answer other chosen → ⊥) }
{
    let choice = choice?;
    let chosen = given_handle(&answer)?;
    is_said(&line.reply, &under(answer, choice.value)).then_some((choice, chosen))
}

// The value of the handle that an answer gives, where it gives one.
fn given_handle(answer: &Answer) -> Option<Handle>
    ensures { result ≡ handle_given answer.now }
{
    match answer {
        Answer::Done(reply) => match &reply.given {
            Given::Handle(value) => Some(*value),
            _ => None,
        },
        Answer::Ticket(_) => None,
    }
}

// The answer with this value in place of that of the handle that it gives.
fn under(answer: Answer, value: Handle) -> Answer
    ensures { result ≡ answer_under value answer }
{
    match answer {
        Answer::Done(Reply { status, given }) => Answer::Done(Reply {
            status,
            given: given_under(given, value),
        }),
        Answer::Ticket(ticket) => Answer::Ticket(ticket),
    }
}

// Puts this value in place of that of a handle that is given.
fn given_under(given: Given, value: Handle) -> Given
    ensures { result ≡ given_of value given }
{
    match given {
        Given::Handle(_) => Given::Handle(value),
        other => other,
    }
}
