//! Replies, read back.

ghost use Rattle.std.specs.Prelude.{◌≡◌, IfOk};
ghost use Rattle.serde_json.specs.View.{view, items_view};
ghost use Rattle.ob_reader.specs.Reading.{each_in, u64_in, listed_in, is_page_status, handle_or_text_in, process_in, page_in, process_or_page_in, gift_in, done_in, reply_in};

use crate::members::{has_items, has_key, has_members, items_at, u32_at, u64_at, u64_in};
use crate::said::{Gift, Numbers, Said};
use crate::texts::{read_bytes, read_bytes_at};
use crate::words::type_name_of;
use ob_base::Status;
use ob_model::{Entries, Listed};
use serde_json::Value;
use std::alloc::{AllocError, Global};

/// How a step ended, as a reply says it: none where the reply isn't of the form. The only error is out of memory. (this
/// profile)
#[tactic(auto, unfolding(crate::specs::Reading::reply_in))]
pub(crate) fn read_reply(alloc: Global, reply: &Value) -> Result<Option<Said>, AllocError>
    ensures { IfOk result (λ said. said ≡ reply_in (view reply.now)) }
{
    if !has_key(reply, "ticket") {
        return read_done(alloc, reply);
    }
    if !has_members(reply, 1) {
        return Ok(None);
    }
    let Some(ticket) = u64_at(reply, "ticket") else {
        return Ok(None);
    };
    Ok(Some(Said::Ticket(ticket)))
}

// A status, and what is given with it.
#[tactic(auto, unfolding(crate::specs::Reading::done_in))]
fn read_done(alloc: Global, reply: &Value) -> Result<Option<Said>, AllocError>
    ensures { IfOk result (λ said. said ≡ done_in (view reply.now)) }
{
    let Some(status) = u64_at(reply, "status") else {
        return Ok(None);
    };
    let Some(gift) = read_gift(alloc, status, reply)? else {
        return Ok(None);
    };
    Ok(Some(Said::Done { status, gift }))
}

// Reads the gift beside a status.
#[tactic(auto, unfolding(crate::specs::Reading::gift_in))]
fn read_gift(alloc: Global, status: u64, reply: &Value) -> Result<Option<Gift>, AllocError>
    ensures { IfOk result (λ gift. gift ≡ gift_in status (view reply.now)) }
{
    if has_members(reply, 1) {
        return Ok(Some(Gift::Nothing));
    }
    if has_members(reply, 2) {
        return read_handle_or_text(alloc, reply);
    }
    if has_members(reply, 3) {
        return read_process_or_page(alloc, status, reply);
    }
    Ok(None)
}

// A handle or a text that is given.
#[tactic(auto, unfolding(crate::specs::Reading::handle_or_text_in))]
fn read_handle_or_text(alloc: Global, reply: &Value) -> Result<Option<Gift>, AllocError>
    ensures { IfOk result (λ gift. gift ≡ handle_or_text_in (view reply.now)) }
{
    if has_key(reply, "handle") {
        let Some(handle) = u32_at(reply, "handle") else {
            return Ok(None);
        };
        return Ok(Some(Gift::Handle(u64::from(handle))));
    }
    let Some(text) = read_bytes_at(alloc, reply, "text")? else {
        return Ok(None);
    };
    Ok(Some(Gift::Text(text)))
}

// A process or a page that is given.
#[tactic(auto, unfolding(crate::specs::Reading::process_or_page_in))]
fn read_process_or_page(
    alloc: Global,
    status: u64,
    reply: &Value,
) -> Result<Option<Gift>, AllocError>
    ensures { IfOk result (λ gift. gift ≡ process_or_page_in status (view reply.now)) }
{
    if has_key(reply, "process") {
        read_process(alloc, reply)
    } else {
        read_page(alloc, status, reply)
    }
}

// A process that is given, with the values of its handles.
#[tactic(auto, unfolding(crate::specs::Reading::process_in))]
fn read_process(alloc: Global, reply: &Value) -> Result<Option<Gift>, AllocError>
    ensures { IfOk result (λ gift. gift ≡ process_in (view reply.now)) }
{
    let Some(process) = u64_at(reply, "process") else {
        return Ok(None);
    };
    let Some(items) = items_at(reply, "handles") else {
        return Ok(None);
    };
    let Some(handles) = read_numbers(alloc, items)? else {
        return Ok(None);
    };
    Ok(Some(Gift::Process(process, handles)))
}

// A page that is given.
#[tactic(auto, unfolding(crate::specs::Reading::page_in))]
fn read_page(alloc: Global, status: u64, reply: &Value) -> Result<Option<Gift>, AllocError>
    ensures { IfOk result (λ gift. gift ≡ page_in status (view reply.now)) }
{
    if !is_page_status(status) {
        return Ok(None);
    }
    let Some(items) = items_at(reply, "entries") else {
        return Ok(None);
    };
    let Some(entries) = read_entries(alloc, items)? else {
        return Ok(None);
    };
    let Some(context) = u64_at(reply, "context") else {
        return Ok(None);
    };
    Ok(Some(Gift::Page { entries, context }))
}

// Whether a page comes with a status.
fn is_page_status(status: u64) -> bool
    ensures { result ≡ is_page_status status }
{
    status == u64::from(Status::Success.code())
        || status == u64::from(Status::MoreEntries.code())
        || status == u64::from(Status::NoMoreEntries.code())
        || status == u64::from(Status::BufferTooSmall.code())
}

// Whole numbers below 2^64.
fn read_numbers(alloc: Global, items: &[Value]) -> Result<Option<Numbers>, AllocError>
    ensures { IfOk result (λ numbers. numbers ≡ each_in u64_in (items_view items.now)) }
{
    let mut numbers = Vec::new(alloc);
    for item in items {
        let Some(number) = u64_in(item) else {
            return Ok(None);
        };
        numbers.push(number)?;
    }
    Ok(Some(Numbers::new(numbers)))
}

// The entries of a page.
fn read_entries(alloc: Global, items: &[Value]) -> Result<Option<Entries>, AllocError>
    ensures { IfOk result (λ entries. entries ≡ each_in listed_in (items_view items.now)) }
{
    let mut entries = Vec::new(alloc);
    for item in items {
        let Some(listed) = read_listed(alloc, item)? else {
            return Ok(None);
        };
        entries.push(listed)?;
    }
    Ok(Some(Entries::new(entries)))
}

// An entry of a page.
#[tactic(auto, unfolding(crate::specs::Reading::listed_in))]
fn read_listed(alloc: Global, pair: &Value) -> Result<Option<Listed>, AllocError>
    ensures { IfOk result (λ listed. listed ≡ listed_in (view pair.now)) }
{
    if !has_items(pair, 2) {
        return Ok(None);
    }
    let Some(name) = pair.get(0usize) else {
        return Ok(None);
    };
    let Some(name) = read_bytes(alloc, name)? else {
        return Ok(None);
    };
    let Some(word) = pair.get(1usize).and_then(Value::as_str) else {
        return Ok(None);
    };
    let Some(type_name) = type_name_of(word) else {
        return Ok(None);
    };
    Ok(Some(Listed { name, type_name }))
}
