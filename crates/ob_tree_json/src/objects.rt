//! The values of objects.

ghost use Rattle.std.specs.Prelude.{◌≡◌, ◌∷◌, [], codes, IfOk, option_map};
ghost use Rattle.serde_json.specs.Data.{boolean};
ghost use Rattle.serde_json.specs.View.{view, items_view, members_view};
ghost use Rattle.ob_tree_json.specs.Json.{directory_value, items_of, members_of, name_value, number_value, object_value, text_value, value_or_null};

use crate::members::{id_or_null, with_value};
use crate::text::make_text;
use ob_model::{Bytes, Row};
use ob_tree::Seen;
use serde_json::{Map, Value};
use std::alloc::{AllocError, Global};

/// The values of objects, in their order.
pub(crate) fn make_objects(alloc: Global, objects: &[Seen]) -> Result<Vec<Value>, AllocError>
    ensures { IfOk result (λ list. items_view list.items ≡ items_of object_value objects.now) }
{
    let mut list = Vec::new(alloc);
    for object in objects {
        list.push(make_object(alloc, object)?)?;
    }
    Ok(list)
}

// The value of an object.
fn make_object(alloc: Global, object: &Seen) -> Result<Value, AllocError>
    ensures { IfOk result (λ value. view value ≡ object_value object.now) }
{
    let members = marked_members(alloc, object)?;
    let members = with_value(alloc, members, "handles", Value::from(object.handles))?;
    let members = with_value(alloc, members, "pinned", Value::from(object.pins))?;
    Ok(Value::Object(members))
}

// The members of an object that say where it is.
fn placed_members(alloc: Global, object: &Seen) -> Result<Map<String, Value>, AllocError>
    ensures { IfOk result (λ members. members_view members.entries
        ≡ members_of ((codes "directory", directory_value object.now)
        ∷ (codes "id", number_value object.now.id)
        ∷ (codes "name", name_value object.now) ∷ [])) }
{
    let name = make_name(alloc, &object.row)?;
    let directory = make_directory(&object.row);
    let members = with_value(alloc, Map::new(alloc), "directory", directory)?;
    let members = with_value(alloc, members, "id", Value::from(object.id.0))?;
    with_value(alloc, members, "name", name)
}

// The same, and those that say what it is.
fn typed_members(alloc: Global, object: &Seen) -> Result<Map<String, Value>, AllocError>
    ensures { IfOk result (λ members. members_view members.entries
        ≡ members_of ((codes "directory", directory_value object.now)
        ∷ (codes "id", number_value object.now.id)
        ∷ (codes "name", name_value object.now)
        ∷ (codes "shadow", value_or_null number_value object.now.shadow)
        ∷ (codes "target", value_or_null text_value object.now.target)
        ∷ (codes "type", text_value object.now.type_name) ∷ [])) }
{
    let target = make_target(alloc, &object.target)?;
    let type_name = make_text(alloc, object.type_name.as_slice())?;
    let members = placed_members(alloc, object)?;
    let members = with_value(alloc, members, "shadow", id_or_null(object.shadow))?;
    let members = with_value(alloc, members, "target", target)?;
    with_value(alloc, members, "type", type_name)
}

// The same, and what holds of it.
fn marked_members(alloc: Global, object: &Seen) -> Result<Map<String, Value>, AllocError>
    ensures { IfOk result (λ members. members_view members.entries
        ≡ members_of ((codes "directory", directory_value object.now)
        ∷ (codes "exclusive", boolean object.now.exclusive)
        ∷ (codes "id", number_value object.now.id)
        ∷ (codes "name", name_value object.now)
        ∷ (codes "permanent", boolean object.now.permanent)
        ∷ (codes "shadow", value_or_null number_value object.now.shadow)
        ∷ (codes "target", value_or_null text_value object.now.target)
        ∷ (codes "type", text_value object.now.type_name) ∷ [])) }
{
    let members = typed_members(alloc, object)?;
    let members = with_value(alloc, members, "exclusive", Value::Bool(object.exclusive))?;
    with_value(alloc, members, "permanent", Value::Bool(object.permanent))
}

// The value of the directory of a name, or `null`.
fn make_directory(row: &Option<Row>) -> Value
    ensures { view result
        ≡ value_or_null number_value (option_map (λ r. r.directory) row.now) }
{
    match row {
        Some(row) => Value::from(row.directory.0),
        None => Value::Null,
    }
}

// The value of a name, or `null`.
fn make_name(alloc: Global, row: &Option<Row>) -> Result<Value, AllocError>
    ensures { IfOk result (λ value. view value
        ≡ value_or_null text_value (option_map (λ r. r.name) row.now)) }
{
    match row {
        Some(row) => make_text(alloc, row.name.as_slice()),
        None => Ok(Value::Null),
    }
}

// The value of the target of a link, or `null`.
fn make_target(alloc: Global, target: &Option<Bytes>) -> Result<Value, AllocError>
    ensures { IfOk result (λ value. view value ≡ value_or_null text_value target.now) }
{
    match target {
        Some(target) => make_text(alloc, target.as_slice()),
        None => Ok(Value::Null),
    }
}
