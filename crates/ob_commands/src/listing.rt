//! Pages of directories.

ghost use Rattle.std.specs.Prelude.{◌≡◌, true, IsOk, IfOk};
ghost use Rattle.ob_model.specs.declared.reply.Answer.TheVariants.{Done};
ghost use Rattle.ob_model.specs.Enumeration.{context_used};
ghost use Rattle.ob_model.specs.Step.{QueriesDirectory};
ghost use Rattle.ob_space.specs.Early.{is_page_refused};

use crate::replies::with_page;
use ob_base::{Handle, Proc, Status};
use ob_handles::HandleTable;
use ob_model::Reply;
use ob_space::{Space, held_of, is_live, status_alone};
use ob_types::TypeSet;
use std::alloc::AllocError;

/// The greatest room that may be asked for, in bytes.
const LARGEST_ROOM: u32 = 1_048_576;

/// Which page of a directory is asked for.
///
/// Source: ZwQueryDirectoryObject (Windows Driver Kit).
#[derive(Clone, Copy)]
pub struct PageRequest {
    /// The stamp after which it begins, any number.
    pub context: u64,
    /// The room, in bytes; any number.
    pub room: u32,
    /// Whether one entry is asked for, and no more.
    pub single: bool,
    /// Whether it begins with the first entry, whatever the context.
    pub restart: bool,
}

/// Gives a page of the directory of a handle of the caller: of its entries after the context, or from the
/// first on where it restarts, as many as fit into the room, or one alone. Nothing is changed.
///
/// Refusals, in their order: `ProcessGone` for a process that isn't live, `InvalidParameter` for a room
/// above 1,048,576 bytes, `InvalidHandle` where the process has no such handle, and `ObjectTypeMismatch`
/// where its object is no directory. Past them a page is given with each of its statuses: `NoMoreEntries`
/// where no entry is left, `BufferTooSmall` where the first doesn't fit, `MoreEntries` where more are left
/// than are shown and not one alone was asked for, else `Success`. The only fault is out of memory, which no
/// refusal takes.
///
/// Source: ZwQueryDirectoryObject (Windows Driver Kit); the greatest room, and the order of refusals, are this
/// profile.
pub fn query_directory<T: TypeSet, H: HandleTable>(
    space: &Space<T, H>,
    process: Proc,
    handle: Handle,
    request: PageRequest,
) -> Result<Reply, AllocError>
    ensures step { IfOk result (λ reply.
        QueriesDirectory T.procedures space.now process handle request.context request.room
        request.single request.restart (Done reply) space.now) }
    ensures early { is_page_refused space.now process handle request.room ≡ true → IsOk result }
{
    if !is_live(space, process) {
        return Ok(status_alone(Status::ProcessGone));
    }
    if request.room > LARGEST_ROOM {
        return Ok(status_alone(Status::InvalidParameter));
    }
    let Some(held) = held_of(space, process, handle) else {
        return Ok(status_alone(Status::InvalidHandle));
    };
    let directory = held.object;
    if !space.store.is_directory(directory) {
        return Ok(status_alone(Status::ObjectTypeMismatch));
    }
    let context = context_used(request.restart, request.context);
    let page = space.store.page(
        space.alloc,
        directory,
        context,
        request.room,
        request.single,
    )?;
    Ok(with_page(page))
}

// The context that a page begins after: 0 where it restarts.
fn context_used(restart: bool, context: u64) -> u64
    ensures { result ≡ context_used restart context }
{
    if restart { 0 } else { context }
}
