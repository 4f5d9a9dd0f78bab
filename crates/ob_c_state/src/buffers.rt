//! The writes of calls to a caller's buffers.

ghost use Rattle.std.specs.Prelude.{◌≡◌, if◌then◌else◌, length, nat_le};
ghost use Rattle.ob_c_state.specs.Reports.{Fills, ReportsText, ReportsEntry, ReportsFirst};
ghost use Rattle.ob_base.specs.Status.{code_of};

use ob_base::Status;
use ob_core::{Entries, Given, Reply};
use ob_numbers::type_named;

/// Writes a text to the beginning of a buffer, and reports its length and a status. If it doesn't fit, nothing is written,
/// and the status is `BufferTooSmall`.
pub fn fill(text: &[u8], status: Status, buffer: &mut [u8], length: &mut usize) -> u32
    ensures { Fills result text.now status buffer.old buffer.new length.new }
{
    *length = text.len();
    if text.len() > buffer.len() {
        return Status::BufferTooSmall.code();
    }
    buffer[..text.len()].copy_from_slice(text);
    status.code()
}

/// Reports a status and no text: the length is 0.
pub fn fill_nothing(status: Status, length: &mut usize) -> u32
    ensures status { result ≡ code_of status }
    ensures length { length.new ≡ 0 }
{
    *length = 0;
    status.code()
}

/// Reports the text that a call gives.
pub fn report_text(ended: &Result<Reply, Status>, buffer: &mut [u8], length: &mut usize) -> u32
    ensures { ReportsText result buffer.old buffer.new length.new ended.now }
{
    match ended {
        Ok(reply) => match &reply.given {
            Given::Text(text) => fill(text.as_slice(), reply.status, buffer, length),
            _ => fill_nothing(reply.status, length),
        },
        Err(status) => fill_nothing(*status, length),
    }
}

/// Reports the first entry of the page that a call gives.
pub fn report_entry(
    ended: &Result<Reply, Status>,
    context: &mut u64,
    buffer: &mut [u8],
    length: &mut usize,
    number: &mut u32,
) -> u32
    ensures { ReportsEntry result context.old context.new buffer.old buffer.new length.new
        number.new ended.now }
{
    *number = 0;
    match ended {
        Ok(reply) => match &reply.given {
            Given::Page {
                entries,
                context: behind,
            } => report_first(
                reply.status,
                entries,
                *behind,
                context,
                buffer,
                length,
                number,
            ),
            _ => fill_nothing(reply.status, length),
        },
        Err(status) => fill_nothing(*status, length),
    }
}

// Reports the first of these entries, after which this context is.
fn report_first(
    status: Status,
    entries: &Entries,
    behind: u64,
    context: &mut u64,
    buffer: &mut [u8],
    length: &mut usize,
    number: &mut u32,
) -> u32
    ensures { ReportsFirst result status entries.now behind context.old context.new buffer.old
        buffer.new length.new number.new }
{
    let Some(entry) = entries.as_slice().first() else {
        *number = 0;
        return fill_nothing(status, length);
    };
    *number = type_named(entry.type_name.as_str());
    let name = entry.name.as_slice();
    *context = context_after(name, buffer, behind, *context);
    fill(name, status, buffer, length)
}

// The context after an entry whose name fits the buffer; else the context as it is.
fn context_after(name: &[u8], buffer: &[u8], behind: u64, context: u64) -> u64
    ensures { result
        ≡ (if nat_le (length name.now) (length buffer.now) then behind else context) }
{
    if name.len() <= buffer.len() {
        behind
    } else {
        context
    }
}
