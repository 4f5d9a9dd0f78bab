//! Steps of the core, with copies of their events and answers.

ghost use Rattle.std.specs.Prelude.{◌≡◌, ◌↔◌, ◌≤◌, [], true, length, vec_capacity, IfOk, IfErr, OnErr, IfSome, OnSome, IsSome, IfNone};
ghost use Rattle.ob_base.specs.declared.status.Status.TheVariants.{Success};
ghost use Rattle.ob_model.specs.Refusals.{answers};
ghost use Rattle.ob_base.specs.declared.fault.Fault.TheVariants.{Memory};
ghost use Rattle.ob_model.specs.declared.reply.Event.TheVariants.{Start, Resume, Abandon};
ghost use Rattle.ob_model.specs.declared.reply.Answer.TheVariants.{Done, Ticket};
ghost use Rattle.ob_model.specs.State.{table_size};
ghost use Rattle.ob_model.specs.Step.{Step};
ghost use Rattle.ob_types.specs.Pending.{run_of_end, brought as end_of, run_of as brought_run};
ghost use Rattle.ob_types.specs.Parse.{asked_of};
ghost use Rattle.ob_opens.specs.Waiting.{answer_of, IfParsing, IsAwaited, IsNotTaken, IsParseOf};
ghost use Rattle.ob_locked.specs.Entered.{entered, EndedAfter, HasFew, PendingAfter};
ghost use Rattle.ob_locked.specs.Rooms.{is_plain, wants_memory, values_given, values_wanted};

use crate::rooms::{copy_in, values_of};
use ob_base::{Fault, Handle, Proc, Status};
use ob_core::{Core, HandleTable, Parsed, Pending, Started};
use ob_entries::Entry;
use ob_model::{Answer, Command, Event, Given, ParseRun, Reply};
use ob_types::TypeSet;
use std::alloc::{AllocError, Global};
use std::mem;

/// Who makes a step, and the number of its entry.
#[derive(Clone, Copy)]
pub(crate) struct Writer {
    pub number: u64,
    pub seat: u32,
}

/// A step of the core: how it ended, and its entry, once for the journal and once as the receipt.
pub(crate) struct Made<T: TypeSet> {
    pub started: Started<T>,
    pub entry: Entry<T::Kind>,
    pub receipt: Entry<T::Kind>,
}

/// The entry of a step.
fn entry_of<K>(writer: Writer, step: Event<K>, reply: Answer) -> Entry<K>
    ensures { result ≡ entered writer.number writer.seat step reply }
{
    Entry {
        number: writer.number,
        seat: writer.seat,
        step,
        reply,
    }
}

/// Starts a command, of which these are copies, and copies its reply. The only fault is out of memory, and then the core is as it was.
pub(crate) fn start_core<T: TypeSet, H: HandleTable>(
    core: &mut Core<T, H>,
    alloc: Global,
    writer: Writer,
    process: Proc,
    command: &Command<T::Kind>,
    copies: (Command<T::Kind>, Command<T::Kind>),
) -> Result<Made<T>, Fault>
    requires copy { copies.0 ≡ command.now }
    requires again { copies.1 ≡ command.now }
    ensures step { IfOk result (λ made.
        Step T.procedures core.old (Start process command.now) (answer_of made.started) core.new) }
    ensures parse { IfOk result (λ made. IfParsing made.started (IsParseOf core.new)) }
    ensures pending { IfOk result (λ made.
        PendingAfter HasFew core.old.pending (answer_of made.started) core.new.pending) }
    ensures entry { IfOk result (λ made. made.entry
        ≡ entered writer.number writer.seat (Start process command.now) (answer_of made.started)) }
    ensures receipt { IfOk result (λ made. made.receipt ≡ made.entry) }
    ensures err { OnErr result (core.new ≡ core.old) }
    ensures memory { IfErr result (λ fault. fault ≡ Memory) }
{
    let asked = with_rooms(core, alloc, process, command, copies)?;
    core.state_is_sound();
    let started = match core.start(process, command) {
        Ok(started) => started,
        Err(fault) => {
            mem::drop(asked);
            return Err(fault);
        }
    };
    match started {
        Started::Done(reply) => {
            let Twice { entry, receipt } = told_twice(writer, process, asked, &reply)?;
            Ok(Made {
                started: Started::Done(reply),
                entry,
                receipt,
            })
        }
        Started::Parsing(parsing) => {
            let (asked, again) = asked;
            let ticket = parsing.ticket();
            Ok(Made {
                started: Started::Parsing(parsing),
                entry: entry_waiting(writer, process, asked, ticket),
                receipt: entry_waiting(writer, process, again, ticket),
            })
        }
    }
}

/// A copy of a command, and room for the handle values that its reply may give.
#[derive(Drop)]
struct Asked<K> {
    command: Command<K>,
    room: Vec<Handle>,
}

/// Two copies of a command of a process, each with that room.
fn with_rooms<T: TypeSet, H: HandleTable>(
    core: &Core<T, H>,
    alloc: Global,
    process: Proc,
    command: &Command<T::Kind>,
    copies: (Command<T::Kind>, Command<T::Kind>),
) -> Result<(Asked<T::Kind>, Asked<T::Kind>), AllocError>
    ensures command { IfOk result (λ asked. asked.0.command ≡ copies.0) }
    ensures again { IfOk result (λ asked. asked.1.command ≡ copies.1) }
    ensures empty { IfOk result (λ asked. asked.0.room.items ≡ []) }
    ensures empty_again { IfOk result (λ asked. asked.1.room.items ≡ []) }
    ensures fits { IfOk result (λ asked.
        values_wanted (table_size core.now process) command.now ≤ vec_capacity asked.0.room) }
    ensures fits_again { IfOk result (λ asked.
        values_wanted (table_size core.now process) command.now ≤ vec_capacity asked.1.room) }
{
    let count = values_of(core, process, command);
    let room = Vec::with_capacity(alloc, count)?;
    let other = match Vec::with_capacity(alloc, count) {
        Ok(other) => other,
        Err(refused) => {
            mem::drop(room);
            mem::drop(copies);
            return Err(refused);
        }
    };
    let (command, again) = copies;
    Ok((
        Asked { command, room },
        Asked {
            command: again,
            room: other,
        },
    ))
}

/// The entry of a start that got a reply. It takes memory only for a text or a page.
fn entry_told<K: Drop>(
    writer: Writer,
    process: Proc,
    asked: Asked<K>,
    reply: &Reply,
) -> Result<Entry<K>, AllocError>
    requires empty { asked.room.items ≡ [] }
    requires fits { length (values_given reply.now.given) ≤ vec_capacity asked.room }
    ensures entry { IfOk result (λ entry. entry
        ≡ entered writer.number writer.seat (Start process asked.command) (Done reply.now)) }
    ensures without_memory { OnErr result (wants_memory reply.now.given ≡ true) }
{
    let Asked { command, room } = asked;
    match copy_in(reply, room) {
        Ok(told) => Ok(entry_of(writer, started_by(process, command), Answer::Done(told))),
        Err(refused) => {
            mem::drop(command);
            Err(refused)
        }
    }
}

/// The same twice.
fn told_twice<K: Drop>(
    writer: Writer,
    process: Proc,
    asked: (Asked<K>, Asked<K>),
    reply: &Reply,
) -> Result<Twice<K>, AllocError>
    requires empty { asked.0.room.items ≡ [] }
    requires empty_again { asked.1.room.items ≡ [] }
    requires fits { length (values_given reply.now.given) ≤ vec_capacity asked.0.room }
    requires fits_again { length (values_given reply.now.given) ≤ vec_capacity asked.1.room }
    ensures entry { IfOk result (λ twice. twice.entry
        ≡ entered writer.number writer.seat (Start process asked.0.command) (Done reply.now)) }
    ensures receipt { IfOk result (λ twice. twice.receipt
        ≡ entered writer.number writer.seat (Start process asked.1.command) (Done reply.now)) }
    ensures without_memory { OnErr result (wants_memory reply.now.given ≡ true) }
{
    let (asked, again) = asked;
    let entry = match entry_told(writer, process, asked, reply) {
        Ok(entry) => entry,
        Err(refused) => {
            mem::drop(again);
            return Err(refused);
        }
    };
    match entry_told(writer, process, again, reply) {
        Ok(receipt) => Ok(Twice { entry, receipt }),
        Err(refused) => {
            mem::drop(entry);
            Err(refused)
        }
    }
}

/// The entry of a start whose open is pending under a ticket.
fn entry_waiting<K>(writer: Writer, process: Proc, asked: Asked<K>, ticket: u64) -> Entry<K>
    ensures { result ≡ entered writer.number writer.seat (Start process asked.command) (Ticket ticket) }
{
    entry_of(
        writer,
        started_by(process, asked.command),
        Answer::Ticket(ticket),
    )
}

/// The event of a start.
fn started_by<K>(process: Proc, command: Command<K>) -> Event<K>
    ensures { result ≡ Start process command }
{
    Event::Start { process, command }
}

/// A copy of a reply that gives nothing, or a handle. It takes no memory.
fn copy_plain(reply: &Reply) -> Reply
    requires { is_plain reply.now.given ≡ true }
    ensures { result ≡ reply.now }
{
    let given = match &reply.given {
        Given::Handle(handle) => Given::Handle(*handle),
        _ => Given::Nothing,
    };
    Reply {
        status: reply.status,
        given,
    }
}

/// Resumes an open with its parse, with the entry of the step. The faults are the core's, and then it is as it was.
pub(crate) fn resume_core<T: TypeSet, H: HandleTable>(
    core: &mut Core<T, H>,
    writer: Writer,
    parsed: Parsed<T>,
) -> Result<Made<T>, (Fault, Parsed<T>)>
    ensures step { IfOk result (λ made.
        Step T.procedures core.old (Resume parsed.ticket (run_of_end parsed.outcome))
        (answer_of made.started) core.new) }
    ensures awaited { IfOk result (λ _. IsAwaited T.procedures core.old (asked_of parsed)) }
    ensures parse { IfOk result (λ made. IfParsing made.started (IsParseOf core.new)) }
    ensures pending { IfOk result (λ made.
        EndedAfter core.old.pending parsed.ticket (answer_of made.started) core.new.pending) }
    ensures entry { IfOk result (λ made. made.entry
        ≡ entered writer.number writer.seat (Resume parsed.ticket (run_of_end parsed.outcome))
        (answer_of made.started)) }
    ensures receipt { IfOk result (λ made. made.receipt ≡ made.entry) }
    ensures err { OnErr result (core.new ≡ core.old) }
    ensures fault { IfErr result (λ back.
        IsNotTaken T.procedures core.old (asked_of parsed) (back.0)) }
    ensures back { IfErr result (λ back. back.1 ≡ parsed) }
{
    let ticket = parsed.ticket();
    let parse = run_of(&parsed);
    core.state_is_sound();
    match core.resume(parsed) {
        Ok(Started::Done(reply)) => {
            let told = Answer::Done(copy_plain(&reply));
            let told_again = Answer::Done(copy_plain(&reply));
            Ok(Made {
                started: Started::Done(reply),
                entry: entry_of(writer, Event::Resume { ticket, parse }, told),
                receipt: entry_of(writer, Event::Resume { ticket, parse }, told_again),
            })
        }
        Ok(Started::Parsing(parsing)) => {
            let next = parsing.ticket();
            Ok(Made {
                started: Started::Parsing(parsing),
                entry: entry_of(
                    writer,
                    Event::Resume { ticket, parse },
                    Answer::Ticket(next),
                ),
                receipt: entry_of(
                    writer,
                    Event::Resume { ticket, parse },
                    Answer::Ticket(next),
                ),
            })
        }
        Err(back) => Err(back),
    }
}

/// The outcome of a parse that was run.
fn run_of<T: TypeSet>(parsed: &Parsed<T>) -> ParseRun
    ensures { result ≡ run_of_end parsed.now.outcome }
{
    if parsed.ran() {
        ParseRun::Ran
    } else {
        ParseRun::NoMemory
    }
}

/// The entry of a step, once for the journal and once as the receipt.
#[derive(Drop)]
pub(crate) struct Twice<K> {
    pub entry: Entry<K>,
    pub receipt: Entry<K>,
}

/// Abandons an open, with the entry of the step; `None` if no open waits for this parse, and then the core is as it was. It takes no
/// memory.
pub(crate) fn abandon_core<T: TypeSet, H: HandleTable>(
    core: &mut Core<T, H>,
    writer: Writer,
    brought: Pending<T>,
) -> Option<Twice<T::Kind>>
    ensures exact { IsSome result ↔ IsAwaited T.procedures core.old (asked_of (end_of brought)) }
    ensures step { OnSome result (Step T.procedures core.old (Abandon (end_of brought).ticket
        (brought_run brought)) (answers Success) core.new) }
    ensures pending { OnSome result (EndedAfter core.old.pending (end_of brought).ticket
        (answers Success) core.new.pending) }
    ensures entry { IfSome result (λ twice. twice.entry
        ≡ entered writer.number writer.seat (Abandon (end_of brought).ticket (brought_run brought))
        (answers Success)) }
    ensures receipt { IfSome result (λ twice. twice.receipt ≡ twice.entry) }
    ensures none { IfNone result (core.new ≡ core.old) }
{
    let ticket = brought.ticket();
    let parse = brought.run();
    core.state_is_sound();
    if !core.abandon(brought) {
        return None;
    }
    Some(Twice {
        entry: entry_of(writer, Event::Abandon { ticket, parse }, success()),
        receipt: entry_of(writer, Event::Abandon { ticket, parse }, success()),
    })
}

/// The answer `Success`, which gives nothing.
fn success() -> Answer
    ensures { result ≡ answers Success }
{
    Answer::Done(Reply {
        status: Status::Success,
        given: Given::Nothing,
    })
}
