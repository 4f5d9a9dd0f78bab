//! The members of objects.

ghost use Rattle.std.specs.Prelude.{◌≡◌, IfOk};
ghost use Rattle.serde_json.specs.Data.{string, put as with_member};
ghost use Rattle.serde_json.specs.View.{view, members_view};
ghost use Rattle.ob_entries.specs.Lines.{text_value};

use crate::texts::escape;
use serde_json::{Map, Value, put};
use std::alloc::{AllocError, Global};

/// These members and one more. The only error is out of memory. (this profile)
pub(crate) fn with_value(
    alloc: Global,
    mut members: Map<String, Value>,
    key: &str,
    value: Value,
) -> Result<Map<String, Value>, AllocError>
    ensures { IfOk result (λ more. members_view more.entries
        ≡ with_member key.now (view value) (members_view members.entries)) }
{
    put(&mut members, alloc, key, value)?;
    Ok(members)
}

/// These members and one more, which is a word. The only error is out of memory. (this profile)
pub(crate) fn with_word(
    alloc: Global,
    members: Map<String, Value>,
    key: &str,
    word: &str,
) -> Result<Map<String, Value>, AllocError>
    ensures { IfOk result (λ more. members_view more.entries
        ≡ with_member key.now (string word.now) (members_view members.entries)) }
{
    let word = Value::try_from_str(alloc, word)?;
    with_value(alloc, members, key, word)
}

/// These members and one more, which is bytes in the form of texts. The only error is out of memory. (this profile)
pub(crate) fn with_text(
    alloc: Global,
    members: Map<String, Value>,
    key: &str,
    bytes: &[u8],
) -> Result<Map<String, Value>, AllocError>
    ensures { IfOk result (λ more. members_view more.entries
        ≡ with_member key.now (text_value bytes.now) (members_view members.entries)) }
{
    let text = escape(alloc, bytes)?;
    with_value(alloc, members, key, Value::String(text))
}
