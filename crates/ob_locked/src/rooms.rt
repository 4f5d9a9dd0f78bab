//! Copies of replies, into memory that was taken before the step.

ghost use Rattle.std.specs.Prelude.{◌≡◌, ◌≤◌, [], true, IfOk, OnErr, length, vec_capacity};
ghost use Rattle.ob_model.specs.State.{table_size};
ghost use Rattle.ob_locked.specs.Rooms.{wants_memory, values_given, values_wanted};

use ob_base::{Handle, Proc};
use ob_core::{Core, HandleTable};
use ob_model::{Command, Given, Handles, Reply};
use ob_types::TypeSet;
use std::alloc::AllocError;

/// How many handle values the reply to a command may give: those of a child.
pub(crate) fn values_of<T: TypeSet, H: HandleTable>(
    core: &Core<T, H>,
    process: Proc,
    command: &Command<T::Kind>,
) -> usize
    ensures { result ≡ values_wanted (table_size core.now process) command.now }
{
    match command {
        Command::NewProcess { .. } => core.handles_of(process),
        _ => 0,
    }
}

/// Copies handle values into the room that was made for them. It takes no memory.
fn values_in(room: Vec<Handle>, values: &[Handle]) -> Handles
    requires empty { room.items ≡ [] }
    requires fits { length values.now ≤ vec_capacity room }
    ensures { result ≡ values.now }
{
    let mut copy = room;
    for value in values {
        let _ = copy.push(*value);
    }
    Handles::new(copy)
}

/// A copy of a reply, whose handle values fit the room. It takes memory only for a text or a page.
pub(crate) fn copy_in(reply: &Reply, room: Vec<Handle>) -> Result<Reply, AllocError>
    requires empty { room.items ≡ [] }
    requires fits { length (values_given reply.now.given) ≤ vec_capacity room }
    ensures copy { IfOk result (λ copy. copy ≡ reply.now) }
    ensures without_memory { OnErr result (wants_memory reply.now.given ≡ true) }
{
    let given = match &reply.given {
        Given::Nothing => Given::Nothing,
        Given::Handle(handle) => Given::Handle(*handle),
        Given::Process(process, values) => {
            Given::Process(*process, values_in(room, values.as_slice()))
        }
        Given::Text(_) | Given::Page { .. } => return reply.clone(),
    };
    Ok(Reply {
        status: reply.status,
        given,
    })
}
