//! Requests of a seat's processes: each is run to its reply, which changes the variables.

ghost use Rattle.std.specs.Prelude.{◌≡◌, ◌++◌, IfOk, IfErr, OnOk, ℕ};
ghost use Rattle.ob_model.specs.declared.reply.Event.TheVariants.{Start, Resume};
ghost use Rattle.ob_model.specs.declared.reply.ParseRun.{ParseRun};
ghost use Rattle.ob_runner.specs.Completes.{HasRun};
ghost use Rattle.ob_lines.specs.Grammar.{HasTexts, request_seen};
ghost use Rattle.ob_requests.specs.Tables.{variables_in};
ghost use Rattle.ob_seats.specs.Received.{Entries};
ghost use Rattle.ob_seats.specs.Played.{IsRequestPlayed, IsRunBy};
ghost use Rattle.ob_seats.specs.Stopped.{IsBrokenOff, IsEventBrokenOff, IsRequestBegun, IsStopAt};

use crate::callers::{CallOutcome, Callers};
use crate::changes::keep_reply;
use crate::stop::Stop;
use ob_base::Proc;
use ob_lines::Request;
use ob_model::{Command, Reply};
use ob_requests::{Variables, command_of};
use ob_standard::StandardKind;
use std::alloc::AllocError;
use std::sync::Wait;

/// Runs the request of a process to its reply, and changes the variables that its reply changes.
pub(crate) fn answer<R: Wait, C: Callers>(
    rt: &R,
    callers: &C,
    variables: &mut Variables,
    pass: C::Pass,
    process: Proc,
    request: Request<&[u8]>,
) -> (C::Pass, Result<(), Stop>)
    requires texts { HasTexts (request_seen request) }
    ensures played { OnOk (result.1) ((entries : Entries) × (C.receipts (result.0) ≡ C.receipts pass
        ++ entries)
        × IsRequestPlayed (request_seen request.entry) process (variables_in variables.old) entries
        (variables_in variables.new)) }
    ensures begun { IfErr (result.1) (λ why. (entries : Entries) × (C.receipts (result.0)
        ≡ C.receipts pass ++ entries)
        × IsRequestBegun (C.gives_fault (result.0)) (request_seen request.entry) process
        (variables_in variables.old) entries why (variables_in variables.new)) }
    ensures seat { C.seat_of (result.0) ≡ C.seat_of pass }
    ensures tickets { (variables_in variables.new).tickets ≡ (variables_in variables.old).tickets }
{
    match command_of(variables, process, &request) {
        Err(_) => (pass, Err(Stop::Memory)),
        Ok((command, change)) => {
            let (pass, ran) = run(rt, callers, pass, process, &command);
            match ran {
                Err(stop) => (pass, Err(stop)),
                Ok(reply) => match keep_reply(variables, process, change, &reply) {
                    Ok(()) => (pass, Ok(())),
                    Err(_) => (pass, Err(Stop::Memory)),
                },
            }
        }
    }
}

/// Runs a command of a process to its reply.
fn run<R: Wait, C: Callers>(
    rt: &R,
    callers: &C,
    pass: C::Pass,
    process: Proc,
    command: &Command<StandardKind>,
) -> (C::Pass, Result<Reply, Stop>)
    ensures ran { IfOk (result.1) (λ reply. (entries : Entries) × (C.receipts (result.0)
        ≡ C.receipts pass ++ entries) × IsRunBy (Start process command.now) entries reply) }
    ensures broken { IfErr (result.1) (λ why. (entries : Entries) × (C.receipts (result.0)
        ≡ C.receipts pass ++ entries) × IsEventBrokenOff (Start process command.now) entries
        × IsStopAt (C.gives_fault (result.0)) why) }
    ensures seat { C.seat_of (result.0) ≡ C.seat_of pass }
{
    let (pass, begun) = callers.start(pass, process, command);
    match begun {
        Ok(CallOutcome::Replied(reply)) => (pass, Ok(reply)),
        Ok(CallOutcome::Waits(parsing)) => bring(rt, callers, pass, parsing),
        Err(fault) => (pass, Err(Stop::from(fault))),
    }
}

/// Runs the parse that an open waits for, and those that follow it, to the reply.
fn bring<R: Wait, C: Callers>(
    rt: &R,
    callers: &C,
    pass: C::Pass,
    parsing: C::Parsing,
) -> (C::Pass, Result<Reply, Stop>)
    ensures ran { IfOk (result.1) (λ reply. (entries : Entries) × (C.receipts (result.0)
        ≡ C.receipts pass ++ entries)
        × (parse : ParseRun) × HasRun parse
        × IsRunBy (Resume (C.ticket_of parsing) parse) entries reply) }
    ensures broken { IfErr (result.1) (λ why. (entries : Entries) × (C.receipts (result.0)
        ≡ C.receipts pass ++ entries) × IsBrokenOff (C.ticket_of parsing) entries
        × IsStopAt (C.gives_fault (result.0)) why) }
    ensures seat { C.seat_of (result.0) ≡ C.seat_of pass }
{
    let mut pass = pass;
    let mut parsing = parsing;
    for _ in rt.forever() {
        let (back, begun) = callers.resume(pass, parsing);
        match begun {
            Ok(CallOutcome::Replied(reply)) => return (back, Ok(reply)),
            Ok(CallOutcome::Waits(next)) => {
                pass = back;
                parsing = next;
            }
            Err(fault) => return (back, Err(Stop::from(fault))),
        }
    }
    unreachable!()
}
