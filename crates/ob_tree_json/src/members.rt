//! Members of JSON objects.

ghost use Rattle.std.specs.Prelude.{◌≡◌, IfOk};
ghost use Rattle.serde_json.specs.Data.{put as with_member};
ghost use Rattle.serde_json.specs.View.{view, members_view};
ghost use Rattle.ob_tree_json.specs.Json.{number_value, value_or_null};

use ob_base::ObjId;
use serde_json::{Map, Value, put};
use std::alloc::{AllocError, Global};

/// These members and one more.
pub(crate) fn with_value(
    alloc: Global,
    mut members: Map<String, Value>,
    key: &str,
    value: Value,
) -> Result<Map<String, Value>, AllocError>
    ensures { IfOk result (λ more. members_view more.entries
        ≡ with_member key.now (view value) (members_view members.entries)) }
{
    put(&mut members, alloc, key, value)?;
    Ok(members)
}

/// The value of an id, or `null`.
pub(crate) fn id_or_null(id: Option<ObjId>) -> Value
    ensures { view result ≡ value_or_null number_value id }
{
    match id {
        Some(id) => Value::from(id.0),
        None => Value::Null,
    }
}
