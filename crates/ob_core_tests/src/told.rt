//! The answers of steps, beside what lines say.

use ob_base::Status;
use ob_core::{Entries, Given, Reply};
use ob_plain::{Call, CallKind};
use ob_stage::{number_of, word_of};
use ob_types::Reason;

/// Whether a line says this status, with the number by which a type refuses.
fn is_status(status: Status, told: &str) -> bool {
    let is_number = match status {
        Status::TypeRefused(code) => number_of(word_of(told, 1)) == u32::from(code),
        _ => true,
    };
    status.text() == word_of(told, 0) && is_number
}

/// Whether the name of the entry at a place ends in this letter, or is lacking where the letter is a dot.
fn is_letter(entries: &Entries, place: usize, letter: Option<&u8>) -> bool {
    match entries.as_slice().get(place) {
        Some(listed) => listed.name.as_slice().last() == letter,
        None => letter == Some(&b'.'),
    }
}

/// Whether a line says the last letters of a page's first three names.
fn are_entries(entries: &Entries, told: &str) -> bool {
    let letters = word_of(told, 1).as_bytes();
    is_letter(entries, 0, letters.first())
        && is_letter(entries, 1, letters.get(1))
        && is_letter(entries, 2, letters.get(2))
}

/// Whether a line says this reply: its status, and of a page also names and the context.
pub(crate) fn is_reply(reply: &Reply, told: &str) -> bool {
    let is_given = match &reply.given {
        Given::Page { entries, context } => {
            are_entries(entries, told) && *context == u64::from(number_of(word_of(told, 2)))
        }
        _ => true,
    };
    is_given && is_status(reply.status, told)
}

/// How many of these calls are opens, closes and deletes.
pub(crate) fn counts_of(calls: &[Call]) -> (u32, u32, u32) {
    let (mut opens, mut closes, mut deletes) = (0u32, 0u32, 0u32);
    for call in calls {
        match call.what {
            CallKind::Opened(_) => opens = opens.wrapping_add(1),
            CallKind::Closed { .. } => closes = closes.wrapping_add(1),
            CallKind::Deleted => deletes = deletes.wrapping_add(1),
        }
    }
    (opens, closes, deletes)
}

/// The call that a line says of an object.
fn call_of(serial: u32, told: &str) -> Call {
    let what = match word_of(told, 0) {
        "created" => CallKind::Opened(Reason::Created),
        "opened" => CallKind::Opened(Reason::Opened),
        "deleted" => CallKind::Deleted,
        _ => CallKind::Closed {
            process_left: number_of(word_of(told, 3)),
            system_left: number_of(word_of(told, 4)),
        },
    };
    let serial = u64::from(serial);
    Call { serial, what }
}

/// Whether a line says so many of these calls, from a place on, of objects whose serials rise or fall.
pub(crate) fn are_calls(calls: &[Call], (from, count): (u32, u32), told: &str) -> bool {
    let first = number_of(word_of(told, 1));
    let rises = word_of(told, 2) == "up";
    for step in 0..count {
        let serial = match rises {
            true => first.wrapping_add(step),
            false => first.wrapping_sub(step),
        };
        if calls.get(from.wrapping_add(step) as usize) != Some(&call_of(serial, told)) {
            return false;
        }
    }
    true
}
