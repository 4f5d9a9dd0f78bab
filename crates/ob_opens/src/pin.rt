//! An open that waits for a parse.

ghost use Rattle.std.specs.Prelude.{◌≡◌, false, IfOk, OnErr};
ghost use Rattle.ob_model.specs.declared.reply.Answer.TheVariants.{Ticket};
ghost use Rattle.ob_model.specs.Opens.{Begins};
ghost use Rattle.ob_model.specs.State.{is_store_full};
ghost use Rattle.ob_space.specs.Orderly.{IsBetweenSteps, IsOrderly};

use ob_base::{ObjId, Proc};
use ob_handles::HandleTable;
use ob_model::{Bytes, PendingOpen, Wanted};
use ob_space::Space;
use ob_types::TypeSet;
use std::alloc::AllocError;

/// The request of an open, and who makes it. `K` is the kind of an object of the set.
#[derive(Clone, Copy, PartialEq, Eq, Debug)]
pub(crate) struct OpenRequest<K> {
    /// The process that asks.
    pub process: Proc,
    /// The flags of the open, as raw bits.
    pub attrs: u32,
    /// The type that is asked for.
    pub wanted: Wanted<K>,
}

/// An open that reached a parsing object is pending from now on: what follows that object in the name waits
/// for its parse, with so many reparses left, under a ticket, which is the next number and is handed back. The
/// object stays as long as the open is pending.
///
/// It asks that the state is orderly, sound and settled, and leaves it so; and that one more fits beside the objects
/// and pending opens, and a number is left. The only fault is out of memory, and then nothing has changed.
///
/// Source: Windows Internals, Object Manager (parse methods; object retention). That the parse is run between
/// two steps, and the ticket, are this profile.
pub(crate) fn begin_parse<T: TypeSet, H: HandleTable>(
    space: &mut Space<T, H>,
    request: OpenRequest<T::Kind>,
    object: ObjId,
    rest: Bytes,
    left: u32,
) -> Result<u64, AllocError>
    requires between { IsBetweenSteps T.idle space.old }
    requires room { is_store_full space.old ≡ false }
    ensures orderly { IsOrderly T.idle space.new }
    ensures begun { IfOk result (λ ticket.
        Begins T.procedures space.old request.process request.attrs request.wanted object rest left
        (Ticket ticket) space.new) }
    ensures unchanged { OnErr result (space.new ≡ space.old) }
{
    let ticket = space.next_id;
    space.pending.insert(PendingOpen {
        ticket,
        process: request.process,
        object,
        rest,
        left,
        attrs: request.attrs,
        wanted: request.wanted,
    })?;
    space.next_id = ticket + 1;
    Ok(ticket)
}
