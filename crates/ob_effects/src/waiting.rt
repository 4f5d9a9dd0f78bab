//! Opens that wait under the variables of a script.

ghost use Rattle.std.specs.Prelude.{◌≡◌, ◌==◌, ◌⊎◌, true, IfOk, OnErr};
ghost use Rattle.std.specs.List.{list_any};
ghost use Rattle.ob_runner.specs.Begun.{AreAwaited, answer_in, tickets_of, with_begun, without};
ghost use Rattle.ob_lines.specs.Grammar.{PendingHasTexts, pending_seen};
ghost use Rattle.ob_parts.specs.Parts.{name_seen, text_of};
ghost use Rattle.ob_parts.specs.Text.{IsText};
ghost use Rattle.ob_lines.specs.declared.pending.PendingForm.TheVariants.{Begin, End, Drop};
ghost use Rattle.ob_requests.specs.Tables.{variables_in, HasRoom};
ghost use Rattle.ob_effects.specs.Effects.{IsCarried, IsStopped, IsWaitDone};
ghost use Rattle.ob_effects.specs.Kept.{IsSession, outcome_of, space_of, variables_of};
ghost use Rattle.ob_requests.specs.Variables.{with_ticket};
ghost use Rattle.ob_effects.specs.Waiting.{variables_answered};

use crate::notice::Notice;
use crate::opening::{OpenForm, keep_reply, open_command};
use crate::outcome::LineOutcome;
use crate::session::Session;
use ob_base::{Proc, Status};
use ob_lines::PendingForm;
use ob_model::{Given, Reply};
use ob_requests::Variables;
use ob_standard_core::{Begun, StandardCore, StandardWaits};
use std::alloc::AllocError;

impl Session {
    // Carries out a line of a process for an open that waits.
    pub(crate) fn carry_on(&mut self, process: Proc, pending: PendingForm<&[u8]>) -> LineOutcome
        requires kept { IsSession self.old }
        requires texts { PendingHasTexts (pending_seen pending) }
        ensures kept { IsSession self.new }
        ensures done { IsWaitDone (pending_seen pending.entry) process (variables_of self.old)
            (space_of self.old) result (variables_of self.new) (space_of self.new) }
    {
        match pending {
            PendingForm::Begin {
                want,
                name,
                attrs,
                variable,
            } => self.begin(process, (want, name, attrs), variable),
            PendingForm::End { variable } => self.end_under(process, variable),
            PendingForm::Drop { variable } => self.drop_under(process, variable),
        }
    }

    // Begins an open under a variable of a process, under which none waits.
    fn begin(&mut self, process: Proc, asked: OpenForm<'_>, variable: &[u8]) -> LineOutcome
        requires kept { IsSession self.old }
        requires text { IsText (text_of (name_seen (asked.1))) }
        ensures kept { IsSession self.new }
        ensures done { IsWaitDone (Begin (asked.entry.0) (name_seen (asked.entry.1))
            (asked.entry.2) variable.now) process (variables_of self.old) (space_of self.old) result
            (variables_of self.new) (space_of self.new) }
    {
        if self.variables.ticket_of(process, variable) != 0 {
            return LineOutcome::Told(Notice::Busy);
        }
        self.core.state_is_sound();
        outcome_of(begin_under(
            &mut self.core,
            &mut self.variables,
            &mut self.waits,
            process,
            asked,
            variable,
        ))
    }

    // Ends the open that waits under a variable of a process: its parse is run, and brought.
    fn end_under(&mut self, process: Proc, variable: &[u8]) -> LineOutcome
        requires kept { IsSession self.old }
        ensures kept { IsSession self.new }
        ensures done { IsWaitDone (End variable.now) process (variables_of self.old)
            (space_of self.old) result (variables_of self.new) (space_of self.new) }
    {
        let ticket = self.variables.ticket_of(process, variable);
        if ticket == 0 {
            return LineOutcome::Told(Notice::NoPending);
        }
        self.core.state_is_sound();
        outcome_of(end_waiting(
            &mut self.core,
            &mut self.variables,
            &mut self.waits,
            process,
            variable,
            ticket,
        ))
    }

    // Gives up the open that waits under a variable of a process, whose parse isn't run. A handle that the variable held stays
    // open, and is no longer named.
    fn drop_under(&mut self, process: Proc, variable: &[u8]) -> LineOutcome
        requires kept { IsSession self.old }
        ensures kept { IsSession self.new }
        ensures done { IsWaitDone (Drop variable.now) process (variables_of self.old)
            (space_of self.old) result (variables_of self.new) (space_of self.new) }
    {
        let ticket = self.variables.ticket_of(process, variable);
        if ticket == 0 {
            return LineOutcome::Told(Notice::NoPending);
        }
        self.core.state_is_sound();
        self.waits.abandon(&mut self.core, ticket);
        self.variables.clear_ticket(process, variable);
        self.variables.give_up(process, variable);
        LineOutcome::Replied(Reply {
            status: Status::Success,
            given: Given::Nothing,
        })
    }
}

// The outcome of a line, by what became of its open.
fn outcome_of(begun: Result<Begun, AllocError>) -> LineOutcome
    ensures { result ≡ outcome_of begun }
{
    match begun {
        Ok(Begun::Replied(reply)) => LineOutcome::Replied(reply),
        Ok(Begun::Waits(_)) => LineOutcome::Pending,
        Err(_) => LineOutcome::NoMemory,
    }
}

// Begins an open of a process, and keeps under its variable what becomes of it.
fn begin_under(
    core: &mut StandardCore,
    variables: &mut Variables,
    waits: &mut StandardWaits,
    process: Proc,
    asked: OpenForm<'_>,
    variable: &[u8],
) -> Result<Begun, AllocError>
    requires awaited { AreAwaited core.old waits.old }
    requires text { IsText (text_of (name_seen (asked.1))) }
    ensures awaited { AreAwaited core.new waits.new }
    ensures carried { IfOk result (λ begun.
        IsCarried (Begin (asked.entry.0) (name_seen (asked.entry.1))
        (asked.entry.2) variable.now) process (variables_in variables.old) core.old
        (answer_in begun) (variables_in variables.new) core.new) }
    ensures tickets { IfOk result (λ begun. tickets_of waits.new
        ≡ with_begun begun (tickets_of waits.old)) }
    ensures stopped { OnErr result (IsStopped (Begin (asked.entry.0) (name_seen (asked.entry.1))
        (asked.entry.2) variable.now) process (variables_in variables.old) core.old
        (variables_in variables.new) core.new) }
    ensures kept { OnErr result (tickets_of waits.new ≡ tickets_of waits.old) }
{
    let command = open_command(variables, process, asked, variable)?;
    let begun = waits.begin(core, process, &command)?;
    keep(variables, process, variable, &begun);
    Ok(begun)
}

// Runs the parse of the open that waits under a variable of a process, brings it, and keeps under the variable what becomes of it.
fn end_waiting(
    core: &mut StandardCore,
    variables: &mut Variables,
    waits: &mut StandardWaits,
    process: Proc,
    variable: &[u8],
    ticket: u64,
) -> Result<Begun, AllocError>
    requires awaited { AreAwaited core.old waits.old }
    requires there { list_any (λ n. n == ticket) (tickets_of waits.old) ≡ true }
    requires under { (variables_in variables.old).tickets process variable.now ≡ ticket }
    ensures awaited { AreAwaited core.new waits.new }
    ensures carried { IfOk result (λ begun.
        IsCarried (End variable.now) process (variables_in variables.old) core.old (answer_in begun)
        (variables_in variables.new) core.new) }
    ensures tickets { IfOk result (λ begun. tickets_of waits.new
        ≡ with_begun begun (without ticket (tickets_of waits.old))) }
    ensures stopped { OnErr result (IsStopped (End variable.now) process (variables_in variables.old) core.old
        (variables_in variables.new) core.new) }
    ensures kept { OnErr result (((variables_in variables.new ≡ variables_in variables.old)
        × (tickets_of waits.new ≡ tickets_of waits.old))
        ⊎ ((variables_in variables.new ≡ with_ticket (variables_in variables.old) process variable.now 0)
        × (tickets_of waits.new ≡ without ticket (tickets_of waits.old)))) }
{
    variables.room_for_variable(process, variable)?;
    match waits.end(core, variables.alloc, ticket) {
        Ok(begun) => {
            keep(variables, process, variable, &begun);
            Ok(begun)
        }
        Err(want) => {
            variables.clear_ticket(process, variable);
            Err(want)
        }
    }
}

// Keeps what became of an open under its variable: the ticket under which it waits; or its reply, which sets the variable.
fn keep(variables: &mut Variables, process: Proc, variable: &[u8], begun: &Begun)
    requires room { HasRoom variables.old.handles process variable.now }
    ensures { variables_in variables.new
        ≡ variables_answered (variables_in variables.old) process variable.now (answer_in begun.now) }
{
    match begun {
        Begun::Replied(reply) => keep_reply(variables, process, variable, reply),
        Begun::Waits(ticket) => variables.set_ticket(process, variable, *ticket),
    }
}
