//! The values of processes.

ghost use Rattle.std.specs.Prelude.{◌≡◌, IfOk};
ghost use Rattle.serde_json.specs.View.{view, items_view};
ghost use Rattle.ob_tree_json.specs.Json.{handle_value, items_of, process_value};

use crate::members::{id_or_null, with_value};
use ob_model::Held;
use ob_tree::SeenProcess;
use serde_json::{Map, Value};
use std::alloc::{AllocError, Global};

/// The values of processes, in their order.
pub(crate) fn make_processes(
    alloc: Global,
    processes: &[SeenProcess],
) -> Result<Vec<Value>, AllocError>
    ensures { IfOk result (λ list. items_view list.items ≡ items_of process_value processes.now) }
{
    let mut list = Vec::new(alloc);
    for process in processes {
        list.push(make_process(alloc, process)?)?;
    }
    Ok(list)
}

// The value of a process.
fn make_process(alloc: Global, process: &SeenProcess) -> Result<Value, AllocError>
    ensures { IfOk result (λ value. view value ≡ process_value process.now) }
{
    let handles = make_handles(alloc, process.handles.as_slice())?;
    let value = with_value(
        alloc,
        Map::new(alloc),
        "process",
        Value::from(process.number.0),
    )?;
    let value = with_value(alloc, value, "map", id_or_null(process.map))?;
    let value = with_value(alloc, value, "handles", Value::Array(handles))?;
    Ok(Value::Object(value))
}

// The values of handles, in their order.
fn make_handles(alloc: Global, handles: &[Held]) -> Result<Vec<Value>, AllocError>
    ensures { IfOk result (λ list. items_view list.items ≡ items_of handle_value handles.now) }
{
    let mut list = Vec::new(alloc);
    for held in handles {
        list.push(make_handle(alloc, held)?)?;
    }
    Ok(list)
}

// The value of a handle.
fn make_handle(alloc: Global, held: &Held) -> Result<Value, AllocError>
    ensures { IfOk result (λ value. view value ≡ handle_value held.now) }
{
    let value = with_value(alloc, Map::new(alloc), "object", Value::from(held.object.0))?;
    let value = with_value(alloc, value, "inherit", Value::Bool(held.inherit))?;
    Ok(Value::Object(value))
}
