//! Opens of a seat that wait under its variables.

ghost use Rattle.std.specs.Prelude.{◌≡◌, ◌≢◌, ◌∷◌, ◌++◌, [], ℕ, IfOk, IfErr, OnErr, OnOk};
ghost use Rattle.ob_model.specs.Run.{Entry};
ghost use Rattle.ob_standard.specs.Standard.{StandardKind as StandardKinds};
ghost use Rattle.ob_parts.specs.Parts.{name_seen, text_of};
ghost use Rattle.ob_parts.specs.Text.{IsText};
ghost use Rattle.ob_lines.specs.Grammar.{PendingHasTexts, pending_seen};
ghost use Rattle.ob_lines.specs.declared.pending.PendingForm.TheVariants.{Begin, End, Drop};
ghost use Rattle.ob_requests.specs.Tables.{variables_in, HasRoom};
ghost use Rattle.ob_requests.specs.Variables.{with_ticket};
ghost use Rattle.ob_seats.specs.Received.{Entries};
ghost use Rattle.ob_seats.specs.Played.{IsStepPlayed, IsWaitPlayed};
ghost use Rattle.ob_seats.specs.Stopped.{IsAbandoned, IsNotKept, IsStepBegun, IsWaitBegun};
ghost use Rattle.ob_seats.specs.Kept.{AreHeld};

use crate::callers::{CallOutcome, Callers};
use crate::stop::Stop;
use crate::waits::SeatWaits;
use ob_base::Proc;
use ob_effects::{OpenForm, keep_reply, open_command};
use ob_lines::PendingForm;
use ob_requests::Variables;

/// Does what a line of a process says of an open that waits.
pub(crate) fn carry_on<C: Callers>(
    callers: &C,
    variables: &mut Variables,
    waits: &mut SeatWaits<C>,
    pass: C::Pass,
    process: Proc,
    pending: PendingForm<&[u8]>,
) -> (C::Pass, Result<(), Stop>)
    requires texts { PendingHasTexts (pending_seen pending) }
    requires held { AreHeld (variables_in variables.old).tickets waits.old }
    ensures held { AreHeld (variables_in variables.new).tickets waits.new }
    ensures played { OnOk (result.1) ((entries : Entries) × (C.receipts (result.0) ≡ C.receipts pass
        ++ entries)
        × IsWaitPlayed (pending_seen pending.entry) process (variables_in variables.old) entries
        (variables_in variables.new)) }
    ensures begun { IfErr (result.1) (λ why. (entries : Entries) × (C.receipts (result.0)
        ≡ C.receipts pass ++ entries)
        × IsWaitBegun (C.gives_fault (result.0)) (pending_seen pending.entry) process
        (variables_in variables.old) entries why (variables_in variables.new)) }
    ensures seat { C.seat_of (result.0) ≡ C.seat_of pass }
{
    match pending {
        PendingForm::Begin {
            want,
            name,
            attrs,
            variable,
        } => {
            if variables.ticket_of(process, variable) != 0 {
                return (pass, Ok(()));
            }
            let asked = (want, name, attrs);
            begin(callers, variables, waits, pass, process, asked, variable)
        }
        PendingForm::End { variable } => {
            let ticket = variables.ticket_of(process, variable);
            if ticket == 0 {
                return (pass, Ok(()));
            }
            end(callers, variables, waits, pass, process, variable, ticket)
        }
        PendingForm::Drop { variable } => {
            let ticket = variables.ticket_of(process, variable);
            if ticket == 0 {
                return (pass, Ok(()));
            }
            give_up(callers, variables, waits, pass, process, variable, ticket)
        }
    }
}

/// Begins an open of a process under a variable, under which none waits.
fn begin<C: Callers>(
    callers: &C,
    variables: &mut Variables,
    waits: &mut SeatWaits<C>,
    pass: C::Pass,
    process: Proc,
    asked: OpenForm<'_>,
    variable: &[u8],
) -> (C::Pass, Result<(), Stop>)
    requires text { IsText (text_of (name_seen (asked.1))) }
    requires free { (variables_in variables.old).tickets process variable.now ≡ 0 }
    requires held { AreHeld (variables_in variables.old).tickets waits.old }
    ensures held { AreHeld (variables_in variables.new).tickets waits.new }
    ensures played { OnOk (result.1) ((e : Entry StandardKinds) × (C.receipts (result.0)
        ≡ C.receipts pass ++ e ∷ [])
        × IsStepPlayed (Begin (asked.entry.0) (name_seen (asked.entry.1))
        (asked.entry.2) variable.now) process (variables_in variables.old) e (variables_in variables.new)) }
    ensures begun { IfErr (result.1) (λ why. (entries : Entries) × (C.receipts (result.0)
        ≡ C.receipts pass ++ entries)
        × IsStepBegun (C.gives_fault (result.0)) (Begin (asked.entry.0) (name_seen (asked.entry.1)) (asked.entry.2) variable.now) process
        (variables_in variables.old) entries why (variables_in variables.new)) }
    ensures seat { C.seat_of (result.0) ≡ C.seat_of pass }
{
    match open_command(variables, process, asked, variable) {
        Err(_) => (pass, Err(Stop::Memory)),
        Ok(command) => {
            let (pass, begun) = callers.start(pass, process, &command);
            match begun {
                Ok(CallOutcome::Replied(reply)) => {
                    keep_reply(variables, process, variable, &reply);
                    (pass, Ok(()))
                }
                Ok(CallOutcome::Waits(parsing)) => {
                    wait(callers, variables, waits, pass, process, variable, parsing)
                }
                Err(fault) => (pass, Err(Stop::from(fault))),
            }
        }
    }
}

/// Keeps the parse of an open that waits under a variable, under which no other does any longer. Where it can't be kept, the open is given up.
fn wait<C: Callers>(
    callers: &C,
    variables: &mut Variables,
    waits: &mut SeatWaits<C>,
    pass: C::Pass,
    process: Proc,
    variable: &[u8],
    parsing: C::Parsing,
) -> (C::Pass, Result<(), Stop>)
    requires room { HasRoom variables.old.handles process variable.now }
    requires held { AreHeld (with_ticket
        (variables_in variables.old) process variable.now 0).tickets waits.old }
    ensures held { AreHeld (variables_in variables.new).tickets waits.new }
    ensures set { OnOk (result.1) (variables_in variables.new
        ≡ with_ticket (variables_in variables.old) process variable.now (C.ticket_of parsing)) }
    ensures kept { OnOk (result.1) (C.receipts (result.0) ≡ C.receipts pass) }
    ensures cleared { OnErr (result.1) (variables_in variables.new
        ≡ with_ticket (variables_in variables.old) process variable.now 0) }
    ensures why { IfErr (result.1) (λ why. IsNotKept (with_ticket
        (variables_in variables.old) process variable.now 0) (C.ticket_of parsing) why) }
    ensures abandoned { OnErr (result.1) ((entries : Entries) × (C.receipts (result.0)
        ≡ C.receipts pass ++ entries) × IsAbandoned (C.ticket_of parsing) entries) }
    ensures seat { C.seat_of (result.0) ≡ C.seat_of pass }
{
    let ticket = C::ticket(&parsing);
    match waits.keep(parsing) {
        Ok(()) => {
            variables.set_ticket(process, variable, ticket);
            (pass, Ok(()))
        }
        Err((stop, parsing)) => {
            variables.clear_ticket(process, variable);
            let (pass, _is_made) = callers.abandon(pass, parsing);
            (pass, Err(stop))
        }
    }
}

/// Runs the parse of the open that waits under a variable of a process, and brings it.
fn end<C: Callers>(
    callers: &C,
    variables: &mut Variables,
    waits: &mut SeatWaits<C>,
    pass: C::Pass,
    process: Proc,
    variable: &[u8],
    ticket: u64,
) -> (C::Pass, Result<(), Stop>)
    requires under { (variables_in variables.old).tickets process variable.now ≡ ticket }
    requires some { ticket ≢ 0 }
    requires held { AreHeld (variables_in variables.old).tickets waits.old }
    ensures held { AreHeld (variables_in variables.new).tickets waits.new }
    ensures played { OnOk (result.1) ((e : Entry StandardKinds) × (C.receipts (result.0)
        ≡ C.receipts pass ++ e ∷ [])
        × IsStepPlayed (End variable.now) process (variables_in variables.old) e (variables_in variables.new)) }
    ensures begun { IfErr (result.1) (λ why. (entries : Entries) × (C.receipts (result.0)
        ≡ C.receipts pass ++ entries)
        × IsStepBegun (C.gives_fault (result.0)) (End variable.now) process
        (variables_in variables.old) entries why (variables_in variables.new)) }
    ensures seat { C.seat_of (result.0) ≡ C.seat_of pass }
{
    match variables.room_for_variable(process, variable) {
        Err(_) => (pass, Err(Stop::Memory)),
        Ok(()) => {
            let parsing = waits.take(ticket);
            let (pass, begun) = callers.resume(pass, parsing);
            match begun {
                Ok(CallOutcome::Replied(reply)) => {
                    keep_reply(variables, process, variable, &reply);
                    (pass, Ok(()))
                }
                Ok(CallOutcome::Waits(next)) => {
                    wait(callers, variables, waits, pass, process, variable, next)
                }
                Err(fault) => {
                    variables.clear_ticket(process, variable);
                    (pass, Err(Stop::from(fault)))
                }
            }
        }
    }
}

/// Gives up the open that waits under a variable of a process, whose parse isn't run. A handle that the variable held stays open, and is no longer
/// named.
fn give_up<C: Callers>(
    callers: &C,
    variables: &mut Variables,
    waits: &mut SeatWaits<C>,
    pass: C::Pass,
    process: Proc,
    variable: &[u8],
    ticket: u64,
) -> (C::Pass, Result<(), Stop>)
    requires under { (variables_in variables.old).tickets process variable.now ≡ ticket }
    requires some { ticket ≢ 0 }
    requires held { AreHeld (variables_in variables.old).tickets waits.old }
    ensures held { AreHeld (variables_in variables.new).tickets waits.new }
    ensures played { OnOk (result.1) ((e : Entry StandardKinds) × (C.receipts (result.0)
        ≡ C.receipts pass ++ e ∷ [])
        × IsStepPlayed (Drop variable.now) process (variables_in variables.old) e (variables_in variables.new)) }
    ensures begun { IfErr (result.1) (λ why. (entries : Entries) × (C.receipts (result.0)
        ≡ C.receipts pass ++ entries)
        × IsStepBegun (C.gives_fault (result.0)) (Drop variable.now) process
        (variables_in variables.old) entries why (variables_in variables.new)) }
    ensures seat { C.seat_of (result.0) ≡ C.seat_of pass }
{
    let parsing = waits.take(ticket);
    let (pass, is_made) = callers.abandon(pass, parsing);
    variables.clear_ticket(process, variable);
    variables.give_up(process, variable);
    if is_made {
        (pass, Ok(()))
    } else {
        (pass, Err(Stop::Refused))
    }
}
