//! The walk over a text, component by component.

ghost use Rattle.std.specs.Prelude.{◌≡◌, ◌&&◌, ℕ, None, Some, IsSome};
ghost use Rattle.std.specs.Option.{option_copied, option_map};
ghost use Rattle.ob_model.specs.Names.{IsRest};
ghost use Rattle.ob_model.specs.State.{State};
ghost use Rattle.ob_model.specs.Looks.{IsStop};
ghost use Rattle.ob_devmap.specs.View.{IsViewOf};
ghost use Rattle.ob_objects.specs.Store.{IsStore, Shows, stored_at, directory_at, entries_at};
ghost use Rattle.ob_lookup.specs.Closed.{IsClosed, IsViewThere};
ghost use Rattle.ob_lookup.specs.Walk.{rest_of, directory_of, shadow_at, object_in, object_seen, object_at, place_of, text_of, stop_of, Meets};

use crate::start::{Standpoint, Start, directory_of};
use ob_base::ObjId;
use ob_devmap::View;
use ob_dirs::Dir;
use ob_names::{Component, Name, first};
use ob_objects::{Store, StoredBody};
use ob_types::TypeSet;

/// Where a walk stops.
pub(crate) enum Stop<'a, 's> {
    /// At a directory in which a component is empty or names nothing.
    Missed {
        /// The directory.
        directory: ObjId,
        /// The component.
        component: Name<'a>,
        /// Whether nothing follows it.
        last: bool,
    },
    /// At a directory, with nothing left.
    Directory(ObjId),
    /// At a symbolic link.
    Link {
        /// The link.
        id: ObjId,
        /// Its target.
        target: Name<'s>,
        /// The rest of the text after it.
        rest: Name<'a>,
    },
    /// At an object of the set.
    Other {
        /// The object.
        id: ObjId,
        /// The rest of the text after it.
        rest: Name<'a>,
        /// Whether its kind parses.
        parses: bool,
    },
}

/// Walks a text from a place. A view is searched for the first component alone, and a shadow for a component for which its
/// directory has no entry, but not for the last component of a create.
pub(crate) fn walk<'a, 's, T: TypeSet>(
    store: &'s Store<T>,
    view: &View,
    start: Start<'a>,
    create: bool,
    fold: bool,
) -> Stop<'a, 's>
    requires closed { IsClosed store.now }
    requires view { IsViewThere store.now view.now }
    requires directory { IsSome (directory_at store.now (directory_of view.now start.place)) }
    ensures stop { (s : State T.Kind T T.Face T.Inner) (p : ℕ) → Shows s store.now
        → IsViewOf s p view.now
        → IsStop s (place_of p start.entry) (text_of start.entry) create fold (stop_of result) }
    ensures meets { (s : State T.Kind T T.Face T.Inner) → Shows s store.now
        → Meets T.procedures s result }
{
    let mut place = start.place;
    let (mut dir, mut shadow) = directory(store, directory_of(view, &place));
    let mut left = start.behind;
    while let Some(behind) = left {
        let Component::One { name, rest } = first(behind.as_slice()) else {
            return Stop::Missed {
                directory: directory_of(view, &place),
                component: Name::new(&[]),
                last: behind.as_slice().is_empty(),
            };
        };
        let last = rest.is_empty();
        let own = is_own(last, create);
        let Some(object) = named_at(store, view, &place, dir, shadow, name, own, fold) else {
            return Stop::Missed {
                directory: directory_of(view, &place),
                component: Name::new(name),
                last,
            };
        };
        match body(store, object) {
            StoredBody::Directory(next, beneath) => {
                place = Standpoint::InDirectory(object);
                dir = next;
                shadow = *beneath;
                left = behind_separator(Name::new(rest));
            }
            StoredBody::Link(target) => {
                return Stop::Link {
                    id: object,
                    target: target.as_name(),
                    rest: Name::new(rest),
                };
            }
            StoredBody::Other { face, .. } => {
                return Stop::Other {
                    id: object,
                    rest: Name::new(rest),
                    parses: T::parses(T::kind_of(face)),
                };
            }
        }
    }
    Stop::Directory(directory_of(view, &place))
}

/// Whether own entries alone count for a component: where it is the last one of a create.
pub(crate) fn is_own(last: bool, create: bool) -> bool
    ensures { result ≡ (last && create) }
{
    last && create
}

/// The object that a component names at a place, whose directory has these entries and this shadow: where it isn't
/// seen there, a view is searched for it in its global directory too.
pub(crate) fn named_at<T: TypeSet>(
    store: &Store<T>,
    view: &View,
    place: &Standpoint,
    dir: &Dir,
    shadow: Option<ObjId>,
    component: &[u8],
    own: bool,
    fold: bool,
) -> Option<ObjId>
    requires { IsSome (directory_at store.now view.now.global) }
    ensures { result ≡ object_at store.now view.now place.now dir.now shadow component.now own fold }
{
    let named = seen_in(store, dir, shadow, component, own, fold);
    match place {
        Standpoint::InView if named.is_none() => {
            let (global, beneath) = directory(store, view.global);
            seen_in(store, global, beneath, component, own, fold)
        }
        _ => named,
    }
}

/// The object that a component names in a directory with these entries and this shadow, which is searched where the
/// directory has no such entry, and more than own entries are asked for.
fn seen_in<T: TypeSet>(
    store: &Store<T>,
    dir: &Dir,
    shadow: Option<ObjId>,
    component: &[u8],
    own: bool,
    fold: bool,
) -> Option<ObjId>
    ensures { result ≡ object_seen store.now dir.now shadow component.now own fold }
{
    let named = named_in(dir, component, fold);
    if own || named.is_some() {
        return named;
    }
    named_in_shadow(store, shadow?, component, fold)
}

/// The object that a component names in a shadow.
fn named_in_shadow<T: TypeSet>(
    store: &Store<T>,
    shadow: ObjId,
    component: &[u8],
    fold: bool,
) -> Option<ObjId>
    ensures { result ≡ object_in (entries_at store.now shadow) component.now fold }
{
    named_in(store.directory_at(shadow)?, component, fold)
}

/// The object that a component names in a directory.
fn named_in(dir: &Dir, component: &[u8], fold: bool) -> Option<ObjId>
    ensures { result ≡ object_in dir.now component.now fold }
{
    dir.find(component, fold).map(|(_, object)| object)
}

/// A directory's entries, and its shadow, where it has one.
pub(crate) fn directory<T: TypeSet>(store: &Store<T>, id: ObjId) -> (&Dir, Option<ObjId>)
    requires { IsSome (directory_at store.now id) }
    ensures directory { directory_at store.now id ≡ Some result.0.now }
    ensures shadow { shadow_at store.now id ≡ result.1 }
    ensures store { IsStore store.now }
{
    let StoredBody::Directory(dir, shadow) = body(store, id) else {
        unreachable!();
    };
    (dir, *shadow)
}

/// The body of an object that is there.
pub(crate) fn body<T: TypeSet>(store: &Store<T>, id: ObjId) -> &StoredBody<T::Face, T::Inner>
    requires { IsSome (stored_at store.now id) }
    ensures body { option_map (λ x. x.body) (stored_at store.now id) ≡ Some result.now }
    ensures store { IsStore store.now }
{
    let Some(object) = store.get(id) else {
        unreachable!();
    };
    &object.body
}

/// The text after the separator that a rest begins with; none where the rest is empty.
pub(crate) fn behind_separator<'a>(rest: Name<'a>) -> Option<Name<'a>>
    requires { IsRest rest }
    ensures { rest_of result ≡ rest.entry }
{
    let (_, behind) = rest.as_slice().split_first()?;
    Some(Name::new(behind))
}
