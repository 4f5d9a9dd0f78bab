//! Exports that give the texts of statuses and types.

ghost use Rattle.std.specs.Prelude.{◌≡◌, IfNone, IfSome, List, ℕ};
ghost use Rattle.std.specs.Ptr.{as_ptr};
ghost use Rattle.ob_numbers.specs.Types.{IsTypeText};
ghost use Rattle.ob_c.specs.Texts.{IsNumberText, LeadsTo};

use crate::pending::PENDING;
use ob_numbers::{status_text, type_text};
use std::ptr;

/// Reports where the text of the status that has this number is: it ends in a byte 0, and is the library's for good. Null
/// if no status has the number. Source: the Windows Driver Kit's "NTSTATUS values".
#[unsafe(no_mangle)]
pub extern "C" fn ntns_status_text_raw(status: u32, text: &mut *const u8)
    ensures { LeadsTo (IsNumberText status) text.new }
{
    *text = match number_text(status) {
        Some(word) => start_of(word.as_bytes()),
        None => ptr::null(),
    };
}

// The text of the status that has this number, `STATUS_PENDING` included; `None` if no status has it.
fn number_text(status: u32) -> Option<&'static str>
    ensures found { IfSome result (λ text. IsNumberText status text.now) }
    ensures none { IfNone result ((text : List ℕ) → IsNumberText status text → ⊥) }
{
    if status == PENDING {
        return Some("PENDING\0");
    }
    status_text(status)
}

/// Reports where the name of the type that has this number is: it ends in a byte 0, and is the library's for good. Null
/// if no type has the number. Source: Windows Internals, Object Manager (object types); the numbers are this profile.
#[unsafe(no_mangle)]
pub extern "C" fn ntns_type_name_raw(number: u32, name: &mut *const u8)
    ensures { LeadsTo (IsTypeText number) name.new }
{
    *name = match type_text(number) {
        Some(text) => start_of(text.as_bytes()),
        None => ptr::null(),
    };
}

// Where the bytes of a text begin.
fn start_of(text: &[u8]) -> *const u8
    ensures { result ≡ as_ptr text.entry }
{
    text.as_ptr()
}
