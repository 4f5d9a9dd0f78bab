//! Looking a name up in the namespace.

ghost use Rattle.std.specs.Prelude.{◌≡◌, ◌<◌, ℕ, List, IfOk, IfErr, OnErr, None, Some};
ghost use Rattle.ob_model.specs.Looks as machine;
ghost use Rattle.ob_model.specs.declared.state.PendingOpen.{PendingOpen};
ghost use Rattle.ob_model.specs.Parses.{LooksAgain};
ghost use Rattle.ob_model.specs.PendingOpens.{without_pending};
ghost use Rattle.ob_model.specs.Sound.{IsSound};
ghost use Rattle.ob_lookup.specs.Look.{look_of, MayWantMemory};
ghost use Rattle.ob_space.specs.Looking.{IsRoot, IsUsable, with_these_opens};

use crate::space::Space;
use ob_base::{ObjId, Proc, Status};
use ob_handles::HandleTable;
use ob_lookup::{Look, sound_has_views, sound_is_closed};
use ob_model::Mode;
use ob_names::Name;
use ob_objects::stored_is_the_object;
use ob_types::TypeSet;
use std::alloc::AllocError;

/// The most reparses of one lookup (this profile).
const MOST_REPARSES: u32 = 32;

/// Looks a name up, relative to the object of a root handle of the process, where one is given, and
/// follows links, with at most 32 reparses: to an object, a vacant place, an object that is to parse what is left
/// of the name, or the status of a refusal.
/// `\??` is what the process sees of the DOS device names.
///
/// It asks that the state is sound, so that every name in it leads somewhere, and that the root object
/// is there. A vacant place is given only to a create, and then a name may be put there; an object that is to parse
/// only to an open, and then its kind does. The state stays as it is, and so does what it leads to, whatever the cache
/// of prefixes keeps of the lookup. The only fault is out of memory: none where no link is
/// followed, so that the name, looked up with no reparse left, ends otherwise than by `ReparseLimit`, however long it is.
///
/// Source: Windows Internals, Object Manager (object names, symbolic links, parse methods, session namespace);
/// the limit is this profile.
pub fn look_up<'a, T: TypeSet, H: HandleTable>(
    space: &mut Space<T, H>,
    process: Proc,
    root: Option<ObjId>,
    name: Name<'a>,
    mode: Mode,
) -> Result<Look<'a>, AllocError>
    requires sound { IsSound space.old }
    requires root { IsRoot space.old root }
    ensures end { IfOk result (λ look.
        machine.LooksUp T.procedures space.old process mode machine.most_reparses root name.entry
        (look_of look)) }
    ensures usable { IfOk result (λ look. IsUsable T.procedures space.old mode (look_of look)) }
    ensures wants { OnErr result ((end : machine.Look) →
        machine.LooksUp T.procedures space.old process mode 0 root name.entry end
        → MayWantMemory end) }
    ensures unchanged { space.new ≡ space.old }
{
    look_with(space, process, root, name, mode, MOST_REPARSES)
}

/// Looks up the absolute name that a parse ended with, where so many reparses are left to the lookup: it takes
/// one of them. It is looked up as [`look_up`] does, in the state as it is now, whatever opens are pending in it,
/// and so also as when the open that waited for the parse is pending no longer.
///
/// It asks that the state is sound. It ends as a lookup does: `Refused` with `ReparseLimit`
/// where no reparse is left, and with `ObjectPathSyntaxBad` where the name doesn't begin with a separator; no
/// name is too long. Nothing is changed. The only fault is out of memory, as of [`look_up`], and none where no
/// reparse is left.
///
/// Source: Windows Internals, Object Manager (parse methods, symbolic links); that a parse's text takes one of
/// the reparses of its lookup, and is looked up in the state as it is when the parse has ended, are this profile.
pub fn look_up_again<'a, T: TypeSet, H: HandleTable>(
    space: &mut Space<T, H>,
    process: Proc,
    text: Name<'a>,
    mode: Mode,
    left: u32,
) -> Result<Look<'a>, AllocError>
    requires sound { IsSound space.old }
    ensures end { IfOk result (λ look. (ticket : ℕ) →
        LooksAgain T.procedures (without_pending space.old ticket) process mode left text.entry
        (look_of look)) }
    ensures usable { IfOk result (λ look. IsUsable T.procedures space.old mode (look_of look)) }
    ensures left { OnErr result (0 < left) }
    ensures wants { OnErr result ((ticket : ℕ) (end : machine.Look) →
        machine.LooksUp T.procedures
        (without_pending space.old ticket) process mode 0 None text.entry end
        → MayWantMemory end) }
    ensures unchanged { space.new ≡ space.old }
{
    // A name is no longer than a lookup takes.
    let _ = text.as_slice();
    if left == 0 {
        return Ok(Look::Refused(Status::ReparseLimit));
    }
    look_with(space, process, None, text, mode, left - 1)
}

/// Looks a name up with so many reparses left, whatever opens are pending.
fn look_with<'a, T: TypeSet, H: HandleTable>(
    space: &mut Space<T, H>,
    process: Proc,
    root: Option<ObjId>,
    name: Name<'a>,
    mode: Mode,
    left: u32,
) -> Result<Look<'a>, AllocError>
    requires sound { IsSound space.old }
    requires root { IsRoot space.old root }
    ensures end { IfOk result (λ look. (opens : List (PendingOpen T.Kind)) →
        machine.LooksUp T.procedures
        (with_these_opens space.old opens) process mode left root name.entry
        (look_of look)) }
    ensures usable { IfOk result (λ look. IsUsable T.procedures space.old mode (look_of look)) }
    ensures wants { OnErr result ((opens : List (PendingOpen T.Kind)) (end : machine.Look) →
        machine.LooksUp T.procedures
        (with_these_opens space.old opens) process mode 0 root name.entry end
        → MayWantMemory end) }
    ensures unchanged { space.new ≡ space.old }
{
    sound_is_closed::<T::Kind, T, T::Face, T::Inner>();
    stored_is_the_object::<T::Kind, T, T::Face, T::Inner>();
    sound_has_views::<T::Kind, T, T::Face, T::Inner>();
    let view = space.processes.view(process);
    let alloc = space.alloc;
    space.store.look_up(alloc, view, root, name, mode, left)
}
