//! The value of a tree.

ghost use Rattle.std.specs.Prelude.{◌≡◌, false, IfOk};
ghost use Rattle.serde_json.specs.View.{view};
ghost use Rattle.serde_json.specs.Written.{has_float};
ghost use Rattle.ob_tree_json.specs.Json.{json_of, line_of, survey_value};

use crate::members::with_value;
use crate::objects::make_objects;
use crate::processes::make_processes;
use ob_tree::Survey;
use serde_json::{Map, Value};
use std::alloc::{AllocError, Global};

/// The tree of a survey as one line: a compact JSON value with its keys in rising order, and LF. It has the objects by rising ids, each with its name
/// and the id of its directory, or `null`, and the processes with their handles in the order of opening. No value of a handle is in it. The
/// characters of a text have the numbers of its bytes.
///
/// The only error is out of memory. (RFC 8259; the keys: this profile)
pub fn tree_json(alloc: Global, survey: &Survey) -> Result<Vec<u8>, AllocError>
    ensures { IfOk result (λ text. text.items ≡ json_of survey.now) }
{
    let value = make_survey(alloc, survey)?;
    write_value(alloc, &value)
}

// The line of a value, which has no floats.
fn write_value(alloc: Global, value: &Value) -> Result<Vec<u8>, AllocError>
    ensures { IfOk result (λ line. has_float (view value.now) ≡ false → line.items
        ≡ line_of (view value.now)) }
{
    let mut line = value.to_vec(alloc)?;
    line.push(b'\n')?;
    Ok(line)
}

// The value of a survey.
fn make_survey(alloc: Global, survey: &Survey) -> Result<Value, AllocError>
    ensures { IfOk result (λ value. view value ≡ survey_value survey.now) }
{
    let objects = make_objects(alloc, survey.objects())?;
    let processes = make_processes(alloc, survey.processes())?;
    let value = with_value(alloc, Map::new(alloc), "objects", Value::Array(objects))?;
    let value = with_value(alloc, value, "processes", Value::Array(processes))?;
    Ok(Value::Object(value))
}
