//! The lookup.

ghost use Rattle.std.specs.Prelude.{◌≡◌, ◌<◌, ℕ, IsSome, IfOk, IfErr, OnErr};
ghost use Rattle.ob_model.specs.State.{State};
ghost use Rattle.ob_model.specs.Looks as machine;
ghost use Rattle.ob_devmap.specs.View.{IsViewOf};
ghost use Rattle.ob_objects.specs.Store.{Shows, directory_at};
ghost use Rattle.ob_lookup.specs.Closed.{IsClosed, IsRootThere, IsViewThere};
ghost use Rattle.ob_lookup.specs.Walk.{directory_of, place_of, text_of};
ghost use Rattle.ob_lookup.specs.Look.{look_of, turn_of, IfAgain, LooksAgain, Goes, LooksUpIn, WalkMayWantMemory, NameMayWantMemory};

use crate::Look;
use crate::next::{Next, at_stop, with_own_bytes};
use crate::start::{Beginning, Start, absolute, begin};
use crate::walk::walk;
use ob_base::{ObjId, Status};
use ob_devmap::View;
use ob_model::Mode;
use ob_names::Name;
use ob_objects::Store;
use ob_types::TypeSet;
use std::alloc::{AllocError, Global};

/// Looks a name up: an absolute one where `root` is none, else relative to the object `root`, which
/// must be there. So must be the root directory, the directories of the view, and each object that an
/// entry names.
///
/// In an absolute name, and in a text that a link makes, `\??` is the view of the DOS device names.
///
/// - `\??` itself is its local directory, or the global one where there is no local one.
/// - The component after `\??\` is searched for in the local directory first, and then in the global
///   one; those after it are searched for where it leads.
/// - A create of `\??\` and one component looks in the local directory alone, so that it may put a name
///   there that is in the global one.
///
/// A component for which a directory has no entry is searched for in the directory's shadow, if it has one, but not the
/// last component of a create, so that it may put a name there that is in the shadow.
///
/// The refusals:
///
/// - `ObjectPathSyntaxBad`: an absolute name, or a target that is followed, doesn't begin with a
///   separator, or a relative name does; for a relative name this comes before all else.
/// - `ObjectTypeMismatch`: the object `root` is no directory, or something follows an object that is
///   neither a directory nor a link.
/// - `ObjectNameInvalid`: a component is empty, or a create would put `??` into the root directory.
/// - `ObjectPathNotFound`: a component names nothing, and something follows it.
/// - `ObjectNameNotFound`: the last component names nothing, and nothing is to be created.
/// - `ReparseLimit`: a reparse more than `budget` is needed, however long what it makes.
/// - `NameTooLong`: a target and what follows the link make more than 32,767 bytes.
///
/// An open that reaches an object whose kind parses ends there: what follows the object in the name, which may
/// be nothing, is for its parse procedure, and so is the whole of a name relative to it. A create never asks it:
/// to a create it is as any other object.
///
/// The rest of the name, a vacant component or what is to be parsed, is lent from it, or is its own where a
/// link was followed. The only fault is `Memory`, for a text that a link makes, and for what is left of one. So there
/// is none where no link is followed: where the name, looked up with no reparse left, ends otherwise than by
/// `ReparseLimit`.
///
/// Source: Windows Internals, Object Manager (object names, symbolic links, parse methods, session namespace);
/// OBJECT_ATTRIBUTES structure (Windows Driver Kit). The refusals and their order, and the rule on creates
/// after `\??`, are this profile.
pub fn look<'a, T: TypeSet>(
    alloc: Global,
    store: &Store<T>,
    view: View,
    root: Option<ObjId>,
    name: Name<'a>,
    mode: Mode,
    budget: u32,
) -> Result<Look<'a>, AllocError>
    requires closed { IsClosed store.now }
    requires view { IsViewThere store.now view }
    requires root { IsRootThere store.now root }
    ensures end { IfOk result (λ look.
        LooksUpIn T.procedures store.now view mode budget root name.entry (look_of look)) }
    ensures wants { OnErr result
        (NameMayWantMemory T.procedures store.now view mode root name.entry) }
{
    let start = match begin(store, &view, root, name, mode, budget) {
        Beginning::Walk(start) => start,
        Beginning::Over(look) => return Ok(look),
    };
    let mut left = budget;
    let mut next = look_from(alloc, store, &view, start, mode, left)?;
    loop {
        match next {
            Next::Over(look) => return Ok(look),
            Next::Again(text) => {
                left -= 1;
                let again = look_again(alloc, store, &view, text.as_name(), mode, left);
                drop(text);
                next = again?;
            }
        }
    }
}

/// Walks once, and does what is to be done where the walk stops.
fn look_from<'a, T: TypeSet>(
    alloc: Global,
    store: &Store<T>,
    view: &View,
    start: Start<'a>,
    mode: Mode,
    left: u32,
) -> Result<Next<'a>, AllocError>
    requires closed { IsClosed store.now }
    requires view { IsViewThere store.now view.now }
    requires directory { IsSome (directory_at store.now (directory_of view.now start.place)) }
    ensures left { IfOk result (λ next. IfAgain next (0 < left)) }
    ensures goes { IfOk result (λ next.
        (s : State T.Kind T T.Face T.Inner) (p : ℕ) (end : machine.Look) → Shows s store.now
        → IsViewOf s p view.now
        → Goes T.procedures s p mode left (turn_of next) end
        → machine.Looks T.procedures s p mode left (place_of p start.entry)
        (text_of start.entry) end) }
    ensures again { IfOk result (λ next. IfAgain next
        (WalkMayWantMemory T.procedures store.now view.now mode start.entry)) }
    ensures wants { OnErr result
        (WalkMayWantMemory T.procedures store.now view.now mode start.entry) }
{
    at_stop(
        alloc,
        walk(store, view, start, mode.create, mode.fold),
        mode,
        left,
    )
}

/// Looks up a text that a reparse made. The rest of it then has bytes of its own.
fn look_again<'a, T: TypeSet>(
    alloc: Global,
    store: &Store<T>,
    view: &View,
    text: Name<'_>,
    mode: Mode,
    left: u32,
) -> Result<Next<'a>, AllocError>
    requires closed { IsClosed store.now }
    requires view { IsViewThere store.now view.now }
    ensures left { IfOk result (λ next. IfAgain next (0 < left)) }
    ensures goes { IfOk result (λ next.
        (s : State T.Kind T T.Face T.Inner) (p : ℕ) (end : machine.Look) → Shows s store.now
        → IsViewOf s p view.now
        → Goes T.procedures s p mode left (turn_of next) end
        → LooksAgain T.procedures s p mode left text.entry end) }
{
    match absolute(view, text, mode.create) {
        Some(start) => {
            let next = look_from(alloc, store, view, start, mode, left)?;
            with_own_bytes(alloc, next)
        }
        None => Ok(Next::Over(Look::Refused(Status::ObjectPathSyntaxBad))),
    }
}
