//! Two names looked up by one cache, and how often it was of use. All except the test is over any set of types.

ghost use Rattle.std.specs.Prelude.{◌≡◌};
ghost use Rattle.ob_lookup.specs.Prefixes.{ArePaths};
ghost use Rattle.ob_lookup.specs.Closed.{IsClosed, IsViewThere};

use crate::space::{Kind, Space, has_view};
use ob_base::ObjId;
use ob_devmap::View;
use ob_lookup::{Cache, Look, look, look_cached, no_paths_are_shown, paths_are_shown};
use ob_model::Mode;
use ob_names::Name;
use ob_objects::Store;
use ob_plain::{Plain, PlainKind};
use ob_types::TypeSet;
use std::alloc::Global;

// The view of a process without a device map.
const VIEW: View = View {
    local: None,
    global: ObjId(2),
};

// The objects of a namespace beside its root, which is 1; they get the numbers from 2 on: the directory of each, its name,
// and what it is. The first is the global directory.
const OBJECTS: [(u64, &'static str, Kind<'static>); 8] = [
    (1, "GLOBAL??", Kind::Directory),
    (1, "A", Kind::Directory),
    (3, "B", Kind::Directory),
    (4, "C", Kind::File),
    (4, "D", Kind::File),
    (1, "L", Kind::Link(b"\\A")),
    (2, "C:", Kind::Directory),
    (8, "x", Kind::File),
];

// A name, with the word of its mode: as it is, without case, or without the cache.
type Asked = (&'static str, &'static str);

// Two names; the numbers of the objects at which they end, 0 where they end at none, and the hits.
const LOOKUPS: [(Asked, Asked, [u64; 3]); 16] = [
    (("alone", r"\A\B"), ("open", r"\A\B"), [4, 4, 0]),
    (("open", r"\A\B\C"), ("alone", r"\A\B\D"), [5, 6, 0]),
    (("open", r"\A\B"), ("open", r"\A\B"), [4, 4, 1]),
    (("open", r"\A\B\C"), ("open", r"\A\B\D"), [5, 6, 1]),
    (("open", r"\A\B\C"), ("open", r"\A\B"), [5, 4, 0]),
    (("open", r"\A"), ("open", r"\A"), [3, 3, 0]),
    (("open", r"\A\B\gone"), ("open", r"\A\B\C"), [0, 5, 1]),
    (("open", r"\A\gone\C"), ("open", r"\A\gone\C"), [0, 0, 0]),
    (("open", r"\A\B\C\D"), ("open", r"\A\B\C\D"), [0, 0, 0]),
    (("open", r"\L\B"), ("open", r"\L\B"), [4, 4, 1]),
    (("open", r"\L\B"), ("open", r"\A\B"), [4, 4, 1]),
    (("folded", r"\A\B\C"), ("folded", r"\a\b\d"), [5, 6, 1]),
    (("folded", r"\A\B\C"), ("open", r"\A\B\D"), [5, 6, 0]),
    (("open", r"\a\B\C"), ("folded", r"\a\B\C"), [0, 5, 0]),
    (("open", r"\??\C:\x"), ("open", r"\??\C:\x"), [9, 9, 1]),
    (
        ("open", r"\??\C:\x"),
        ("open", r"\GLOBAL??\C:\x"),
        [9, 9, 0],
    ),
];

// The number of the object at which a lookup ends, and 0 where it ends otherwise.
fn number_of(look: &Look<'_>) -> u64 {
    match look {
        Look::At(object) => object.0,
        _ => 0,
    }
}

// The number of the object at which a name ends by a cache, or without it, and 0 where it ends otherwise, or memory runs out.
fn object_named<T: TypeSet>(
    alloc: Global,
    cache: &mut Cache,
    store: &Store<T>,
    view: View,
    asked: Asked,
) -> u64
    requires closed { IsClosed store.now }
    requires view { IsViewThere store.now view }
    requires paths { ArePaths T.Kind T T.Face T.Inner store.now cache.old }
    ensures paths { ArePaths T.Kind T T.Face T.Inner store.now cache.new }
{
    let (word, text) = asked;
    let mode = Mode {
        create: false,
        fold: word == "folded",
        follow: true,
    };
    let Ok(name) = Name::read(text.as_bytes()) else {
        return 0;
    };
    if word == "alone" {
        return match look(alloc, store, view, None, name, mode, 32) {
            Ok(end) => number_of(&end),
            Err(_) => 0,
        };
    }
    match look_cached(alloc, cache, store, view, None, name, mode, 32) {
        Ok(end) => number_of(&end),
        Err(_) => 0,
    }
}

// The numbers of the objects of two names, one after the other by a new cache, and its hits then.
fn in_turn<T: TypeSet>(
    alloc: Global,
    store: &Store<T>,
    first: Asked,
    then: Asked,
) -> Option<[u64; 3]>
    requires closed { IsClosed store.now }
{
    no_paths_are_shown::<T::Kind, T, T::Face, T::Inner>();
    paths_are_shown::<T::Kind, T, T::Face, T::Inner>();
    if !has_view(store, &VIEW) {
        return None;
    }
    let Ok(mut cache) = Cache::new(alloc) else {
        return None;
    };
    let first = object_named(alloc, &mut cache, store, VIEW, first);
    let then = object_named(alloc, &mut cache, store, VIEW, then);
    Some([first, then, cache.hits()])
}

// Whether the objects come in a namespace.
fn is_filled<T: TypeSet>(space: &mut Space<T>) -> bool {
    for (directory, name, kind) in OBJECTS.iter() {
        if !space.add(ObjId(*directory), name.as_bytes(), *kind) {
            return false;
        }
    }
    true
}

// The first names that aren't looked up as they say.
fn first_other_in<T: TypeSet>(alloc: Global, space: &Space<T>) -> Option<(Asked, Asked)> {
    for (first, then, wanted) in LOOKUPS.iter() {
        if in_turn(alloc, space.store(), *first, *then) != Some(*wanted) {
            return Some((*first, *then));
        }
    }
    None
}

// Whether all names are looked up as they say in a new namespace.
fn are_looked_up<T: TypeSet>(alloc: Global, files: T::Kind) -> bool {
    match Space::<T>::new(alloc, files) {
        Some(mut space) => is_filled(&mut space) && first_other_in(alloc, &space).is_none(),
        None => false,
    }
}

#[test]
fn prefixes_that_led_to_directories_are_hits(rt: HostRuntime) {
    assert!(rt; are_looked_up::<Plain>(rt.alloc(), PlainKind::Event));
}
