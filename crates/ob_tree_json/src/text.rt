//! Bytes as JSON strings.

ghost use Rattle.std.specs.Prelude.{◌≡◌, IfOk, string_bytes};
ghost use Rattle.serde_json.specs.View.{view};
ghost use Rattle.ob_tree_json.specs.Json.{characters, text_value};

use serde_json::Value;
use std::alloc::{AllocError, Global};

/// The value of a text, each byte of which is the character of its number.
pub(crate) fn make_text(alloc: Global, bytes: &[u8]) -> Result<Value, AllocError>
    ensures { IfOk result (λ value. view value ≡ text_value bytes.now) }
{
    let text = text_of(alloc, bytes)?;
    Ok(Value::String(text))
}

// The characters whose numbers are these bytes.
fn text_of(alloc: Global, bytes: &[u8]) -> Result<String, AllocError>
    ensures { IfOk result (λ text. string_bytes text ≡ characters bytes.now) }
{
    let mut text = String::new(alloc);
    for byte in bytes {
        text.push(*byte as char)?;
    }
    Ok(text)
}
