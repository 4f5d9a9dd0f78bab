//! The end of a step: objects and names that stay, and those that go.

ghost use Rattle.std.specs.Prelude.{◌==◌, ◌≡◌, if◌then◌else◌, false, MatchOption};
ghost use Rattle.std.specs.List.{find};
ghost use Rattle.std.specs.Option.{option_and_then, option_map_or};
ghost use Rattle.ob_model.specs.Settle.{settle, IsSettled, has_handle, is_mapped};
ghost use Rattle.ob_objects.specs.Changes.{without_name};
ghost use Rattle.ob_objects.specs.Standing.{standing_among};
ghost use Rattle.ob_model.specs.State.{body_of, shadow_in};
ghost use Rattle.ob_objects.specs.Store.{objects_of};
ghost use Rattle.ob_space.specs.Namespace.{running_alone, handles_alone};
ghost use Rattle.ob_space.specs.Orderly.{IsOrderly, IsIdleBody};
ghost use Rattle.ob_handles.specs.Counts.{is_listed};
ghost use Rattle.ob_model.specs.Sound.{IsSound};
ghost use Rattle.ob_life.specs.Settling.{AreShadowsFit, settled_one, settled_unless, shadow_left, shadow_left_unless, with_shadow_settled, held_up_by, AreSettled, HadItsTurn, MaySettle, StaysBut, with_handle_to, without_object};

use ob_base::ObjId;
use ob_handles::{HandleTable, Touched};
use ob_lookup::CachedStore;
use ob_objects::Standing;
use ob_processes::{PendingOpens, Processes};
use ob_space::{GLOBAL, ROOT, Space, delete_body};
use ob_types::TypeSet;

/// Settles after an object has lost a handle, or is a process's map directory no longer: an object that
/// is neither permanent nor has a handle loses its name, and goes if it holds no names that stay, no open
/// is pending at it and it is no map directory; and then the directory of that name goes, if nothing holds it now. The
/// shadows of those that went go then, if nothing holds them. The set's delete is called for each
/// object of its own that goes, the object first. The root and `\GLOBAL??` stay always.
///
/// It asks that the state is orderly and its shadows are fit, and that with one handle more to the object it is settled, so that
/// nothing else can go: a directory that stays by a name in it has no name itself. It
/// leaves an orderly state. No memory is taken, and no other object is looked at; where a handle to the object is left,
/// or it is permanent and has a name, nothing is settled.
///
/// Source: Windows Internals, Object Manager (object retention); that it is judged once, at the end of
/// a step, and the order of the deletes are this profile.
pub fn settle_after_loss<T: TypeSet, H: HandleTable>(space: &mut Space<T, H>, object: ObjId)
    requires orderly { IsOrderly T.idle space.old }
    requires shadows { AreShadowsFit space.old }
    requires kept { IsSettled (with_handle_to space.old object) }
    ensures orderly { IsOrderly T.idle space.new }
    ensures settled { space.new ≡ settle T.procedures space.old }
{
    if has_handle(&space.processes, object) {
        return;
    }
    let standing = space.store.standing_of(object);
    if standing.stays_by_name() {
        return;
    }
    settle_closed(space, object, &standing);
}

/// Settles one object that has no handle, by its standing, and then the directory of its name, and the shadows
/// of both where they went.
fn settle_closed<T: TypeSet, H: HandleTable>(
    space: &mut Space<T, H>,
    object: ObjId,
    standing: &Standing,
)
    requires may { MaySettle T.idle space.old }
    requires unheld { has_handle space.old object ≡ false }
    requires told { standing.now ≡ standing_among space.old.objects space.old.rows object }
    ensures { AreSettled T.procedures space.old (λ o. o == object) object space.new }
{
    // The contract of the length gives the invariant of every store.
    let _ = space.store.len();
    let place = standing.place;
    let own = settle_unheld(space, object, standing);
    let other = match place {
        Some(place) => settle_other(space, object, place.directory),
        None => None,
    };
    settle_other_shadow(space, object, own);
    settle_other_shadow(space, object, other);
}

/// Settles the shadow of a directory that went, where there is one, except for one object. It has no shadow itself.
fn settle_other_shadow<T: TypeSet, H: HandleTable>(
    space: &mut Space<T, H>,
    object: ObjId,
    shadow: Option<ObjId>,
)
    requires { MaySettle T.idle space.old }
    ensures { space.new ≡ with_shadow_settled T.procedures (λ o. o == object) space.old shadow }
{
    if let Some(shadow) = shadow {
        settle_other(space, object, shadow);
    }
}

/// Settles a directory other than one object. It gives the shadow of the directory, where that went.
fn settle_other<T: TypeSet, H: HandleTable>(
    space: &mut Space<T, H>,
    object: ObjId,
    directory: ObjId,
) -> Option<ObjId>
    requires { MaySettle T.idle space.old }
    ensures settled { space.new
        ≡ settled_unless T.procedures (λ o. o == object) space.old directory }
    ensures shadow { result ≡ shadow_left_unless (λ o. o == object) space.old directory }
{
    if directory == object {
        return None;
    }
    settle_one(space, directory)
}

/// Settles after a process has ended: of the objects that its handles led to, each that is neither
/// permanent nor has a handle now loses its name, and goes if it holds no names that stay, no open is
/// pending at it and it is no map directory; and then the directory of that name goes, if nothing holds it now. The directory of the
/// process's device map goes in the same way. The set's delete is called for each object of its own that goes, from
/// the highest number down. The root and `\GLOBAL??` stay always.
///
/// It asks that the state is orderly and sound, and that nothing else can go but a directory by the
/// names that it holds, or the shadow of a directory that goes: `StaysBut`. It leaves an orderly state. No memory is taken, and no other object
/// is looked at, nor is one settled to which a handle is left, so that it takes a time that grows with the objects
/// that the handles led to, times the logarithm of all.
///
/// Source: Windows Internals, Object Manager (object retention); that it is judged once, at the end of
/// a step, and the order of the deletes are this profile.
pub fn settle_after_end<T: TypeSet, H: HandleTable>(
    space: &mut Space<T, H>,
    touched: &Touched,
    map: Option<ObjId>,
)
    requires orderly { IsOrderly T.idle space.old }
    requires sound { IsSound space.old }
    requires kept { StaysBut space.old (is_listed touched.now) map }
    ensures orderly { IsOrderly T.idle space.new }
    ensures settled { space.new ≡ settle T.procedures space.old }
{
    let mut bound = ObjId(space.next_id);
    if let Some(directory) = map {
        let shadow = settle_untouched(space, touched, directory);
        settle_shadow(space, touched, shadow);
    }
    while let Some(id) = touched.last_before(bound) {
        settle_in_turn(space, touched, id);
        bound = id;
    }
}

/// Settles one object in its turn: where a handle to it is left, or it is permanent and has a name, nothing goes, neither
/// of it nor of the directory of its name.
fn settle_in_turn<T: TypeSet, H: HandleTable>(space: &mut Space<T, H>, touched: &Touched, id: ObjId)
    requires { MaySettle T.idle space.old }
    ensures { HadItsTurn T.procedures space.old (is_listed touched.now) id space.new }
{
    if has_handle(&space.processes, id) {
        return;
    }
    let standing = space.store.standing_of(id);
    if !standing.stays_by_name() {
        settle_named(space, touched, id, &standing);
    }
}

/// Settles one object that has no handle, by its standing, and then the directory of its name, unless that has
/// its own turn.
fn settle_named<T: TypeSet, H: HandleTable>(
    space: &mut Space<T, H>,
    touched: &Touched,
    id: ObjId,
    standing: &Standing,
)
    requires may { MaySettle T.idle space.old }
    requires unheld { has_handle space.old id ≡ false }
    requires told { standing.now ≡ standing_among space.old.objects space.old.rows id }
    ensures { AreSettled T.procedures space.old (is_listed touched.now) id space.new }
{
    // The contract of the length gives the invariant of every store.
    let _ = space.store.len();
    let place = standing.place;
    let own = settle_unheld(space, id, standing);
    let other = match place {
        Some(place) => settle_untouched(space, touched, place.directory),
        None => None,
    };
    settle_shadow(space, touched, own);
    settle_shadow(space, touched, other);
}

/// Settles the shadow of a directory that went, where there is one, unless it has its own turn. It has no shadow itself.
fn settle_shadow<T: TypeSet, H: HandleTable>(
    space: &mut Space<T, H>,
    touched: &Touched,
    shadow: Option<ObjId>,
)
    requires { MaySettle T.idle space.old }
    ensures { space.new
        ≡ with_shadow_settled T.procedures (is_listed touched.now) space.old shadow }
{
    if let Some(shadow) = shadow {
        settle_untouched(space, touched, shadow);
    }
}

/// Settles a directory, unless it is one of the objects that have their own turns: what lies in it has
/// greater numbers, and is judged before. It gives the shadow of the directory, where that went.
fn settle_untouched<T: TypeSet, H: HandleTable>(
    space: &mut Space<T, H>,
    touched: &Touched,
    directory: ObjId,
) -> Option<ObjId>
    requires { MaySettle T.idle space.old }
    ensures settled { space.new
        ≡ settled_unless T.procedures (is_listed touched.now) space.old directory }
    ensures shadow { result ≡ shadow_left_unless (is_listed touched.now) space.old directory }
{
    if touched.holds(directory) {
        return None;
    }
    settle_one(space, directory)
}

/// Settles one object: its name goes unless it stays, and then the object goes unless it stays, given
/// the names that are left. It gives the shadow of the object, where that went and is a directory that has one.
fn settle_one<T: TypeSet, H: HandleTable>(space: &mut Space<T, H>, id: ObjId) -> Option<ObjId>
    requires { MaySettle T.idle space.old }
    ensures settled { space.new ≡ settled_one T.procedures space.old id }
    ensures shadow { result ≡ shadow_left space.old id }
{
    if has_handle(&space.processes, id) {
        return None;
    }
    let standing = space.store.standing_of(id);
    settle_unheld(space, id, &standing)
}

/// Settles one object that has no handle, by its standing. It gives the shadow of the object, where that went
/// and is a directory that has one.
fn settle_unheld<T: TypeSet, H: HandleTable>(
    space: &mut Space<T, H>,
    id: ObjId,
    standing: &Standing,
) -> Option<ObjId>
    requires may { MaySettle T.idle space.old }
    requires unheld { has_handle space.old id ≡ false }
    requires told { standing.now ≡ standing_among space.old.objects space.old.rows id }
    ensures settled { space.new ≡ settled_one T.procedures space.old id }
    ensures shadow { result ≡ shadow_left space.old id }
{
    // The contract of the length gives the invariant of every store.
    let _ = space.store.len();
    forget_unkept(&mut space.store, standing);
    if is_held_up(&space.store, &space.processes, &space.pending, id, standing) {
        return None;
    }
    delete_object(space, id)
}

/// Takes away the name of an object that has no handle, unless it is permanent.
fn forget_unkept<T: TypeSet>(store: &mut CachedStore<T>, standing: &Standing)
    ensures { store.new ≡ (if standing.now.permanent then store.old
        else option_map_or (λ place. without_name store.old place.directory place.stamp)
        standing.now.place store.old) }
{
    if standing.permanent {
        return;
    }
    if let Some(place) = standing.place {
        store.remove_name(place.directory, place.stamp);
    }
}

/// Takes away and deletes an object, where it is there, with what lies in it. It gives its shadow, where it is a directory
/// that has one.
fn delete_object<T: TypeSet, H: HandleTable>(space: &mut Space<T, H>, id: ObjId) -> Option<ObjId>
    requires { MatchOption (body_of space.old id) (Unit {0}) (IsIdleBody T.idle) }
    ensures gone { space.new ≡ without_object T.procedures space.old id }
    ensures shadow { result ≡ option_and_then (λ object. shadow_in object.body)
        (find (λ object. object.id == id) space.old.objects) }
{
    let Some(stored) = space.store.remove(id) else {
        return None;
    };
    let shadow = stored.body.shadow();
    delete_body(&mut space.set, stored.body);
    shadow
}

/// Whether an object that has no handle stays, by its standing.
fn is_held_up<T: TypeSet, H: HandleTable>(
    store: &CachedStore<T>,
    processes: &Processes<H>,
    pending: &PendingOpens<T::Kind>,
    id: ObjId,
    standing: &Standing,
) -> bool
    ensures { result ≡ held_up_by (objects_of store.now) processes.now pending.now id standing.now }
{
    standing.holds_names
        || standing.stays_by_name()
        || id == ROOT
        || is_mapped(processes, id)
        || pending.is_pinned(id)
        || store.is_shadow(id)
}

/// Whether an object has a handle.
fn has_handle<H: HandleTable>(processes: &Processes<H>, id: ObjId) -> bool
    ensures { result ≡ has_handle (handles_alone processes.now.handles) id }
{
    processes.count_of(id) > 0
}

/// Whether an object is `\GLOBAL??`, or the map directory of a live process.
fn is_mapped<H: HandleTable>(processes: &Processes<H>, id: ObjId) -> bool
    ensures { result ≡ is_mapped (running_alone processes.now) id }
{
    id == GLOBAL || processes.is_mapped(id)
}
