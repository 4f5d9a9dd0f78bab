//! The values of replies.

ghost use Rattle.std.specs.Prelude.{◌≡◌, ◌∷◌, [], codes, IfOk};
ghost use Rattle.serde_json.specs.View.{view, items_view, members_view};
ghost use Rattle.ob_entries.specs.Lines.{answer_value, reply_value, listed_value, number_value, items_of, members_of};

use crate::members::{with_text, with_value};
use crate::texts::escape;
use ob_base::{Handle, Proc};
use ob_model::{Answer, Bytes, Given, Handles, Listed, Reply};
use serde_json::{Map, Value, json};
use std::alloc::{AllocError, Global};

/// The value of how an event ended, under the key `reply`. The only error is out of memory. (this profile)
pub(crate) fn make_answer(alloc: Global, answer: &Answer) -> Result<Value, AllocError>
    ensures { IfOk result (λ reply. view reply ≡ answer_value answer.now) }
{
    match answer {
        Answer::Done(reply) => make_reply(alloc, reply.status.code(), &reply.given),
        Answer::Ticket(ticket) => make_ticket(alloc, *ticket),
    }
}

// The value of a ticket.
fn make_ticket(alloc: Global, ticket: u64) -> Result<Value, AllocError>
    ensures { IfOk result (λ reply. view reply ≡ answer_value (Answer.Ticket ticket)) }
{
    let reply = with_value(alloc, Map::new(alloc), "ticket", Value::from(ticket))?;
    Ok(Value::Object(reply))
}

// The value of a status and of what is given with it.
fn make_reply(alloc: Global, status: u32, given: &Given) -> Result<Value, AllocError>
    ensures { IfOk result (λ reply. view reply ≡ reply_value status given.now) }
{
    match given {
        Given::Nothing => Ok(Value::Object(begin_reply(alloc, status)?)),
        Given::Handle(handle) => make_handle(alloc, status, *handle),
        Given::Text(text) => make_text(alloc, status, text),
        Given::Process(process, handles) => make_process(
            alloc,
            status,
            *process,
            handles.as_slice(),
        ),
        Given::Page { entries, context } => make_page(alloc, status, entries.as_slice(), *context),
    }
}

// The member of each reply.
fn begin_reply(alloc: Global, status: u32) -> Result<Map<String, Value>, AllocError>
    ensures { IfOk result (λ reply. members_view reply.entries
        ≡ members_of ((codes "status", number_value status) ∷ [])) }
{
    with_value(alloc, Map::new(alloc), "status", Value::from(status))
}

// The value of a handle that is given.
fn make_handle(alloc: Global, status: u32, handle: Handle) -> Result<Value, AllocError>
    ensures { IfOk result (λ reply. view reply ≡ reply_value status (Given.Handle handle)) }
{
    let reply = begin_reply(alloc, status)?;
    let reply = with_value(alloc, reply, "handle", Value::from(handle.0))?;
    Ok(Value::Object(reply))
}

// The value of a text that is given.
fn make_text(alloc: Global, status: u32, text: &Bytes) -> Result<Value, AllocError>
    ensures { IfOk result (λ reply. view reply ≡ reply_value status (Given.Text text.now)) }
{
    let reply = begin_reply(alloc, status)?;
    let reply = with_text(alloc, reply, "text", text.as_slice())?;
    Ok(Value::Object(reply))
}

// The value of a process that is given.
fn make_process(
    alloc: Global,
    status: u32,
    process: Proc,
    handles: &[Handle],
) -> Result<Value, AllocError>
    ensures { IfOk result (λ reply. view reply
        ≡ reply_value status (Given.Process process handles.now)) }
{
    let handles = make_handles(alloc, handles)?;
    let reply = with_value(alloc, Map::new(alloc), "handles", Value::Array(handles))?;
    let reply = with_value(alloc, reply, "process", Value::from(process.0))?;
    let reply = with_value(alloc, reply, "status", Value::from(status))?;
    Ok(Value::Object(reply))
}

// The value of a page that is given.
fn make_page(
    alloc: Global,
    status: u32,
    entries: &[Listed],
    context: u64,
) -> Result<Value, AllocError>
    ensures { IfOk result (λ reply. view reply
        ≡ reply_value status (Given.Page entries.now context)) }
{
    let entries = make_entries(alloc, entries)?;
    let reply = with_value(alloc, Map::new(alloc), "entries", Value::Array(entries))?;
    let reply = with_value(alloc, reply, "context", Value::from(context))?;
    let reply = with_value(alloc, reply, "status", Value::from(status))?;
    Ok(Value::Object(reply))
}

// The values of handles.
fn make_handles(alloc: Global, handles: &[Handle]) -> Result<Vec<Value>, AllocError>
    ensures { IfOk result (λ list. items_view list.items ≡ items_of number_value handles.now) }
{
    let mut list = Vec::new(alloc);
    for handle in handles {
        list.push(Value::from(handle.0))?;
    }
    Ok(list)
}

// The values of the entries of a page.
fn make_entries(alloc: Global, entries: &[Listed]) -> Result<Vec<Value>, AllocError>
    ensures { IfOk result (λ list. items_view list.items ≡ items_of listed_value entries.now) }
{
    let mut list = Vec::new(alloc);
    for entry in entries {
        list.push(make_listed(alloc, entry)?)?;
    }
    Ok(list)
}

// The value of an entry of a page: its name and its type's name.
fn make_listed(alloc: Global, entry: &Listed) -> Result<Value, AllocError>
    ensures { IfOk result (λ pair. view pair ≡ listed_value entry.now) }
{
    let name = escape(alloc, entry.name.as_slice())?;
    json!(in alloc; [name, entry.type_name.as_str()])
}
