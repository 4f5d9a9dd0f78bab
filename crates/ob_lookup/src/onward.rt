//! Where the walk of a text goes on, once its prefix is known to lead to a directory.

ghost use Rattle.std.specs.Prelude.{◌≡◌, ◌≢◌, ◌<◌, ℕ, List, ◌++◌, ◌∷◌, length, All, IsSome, IfOk, IfSome, IfNone, Some};
ghost use Rattle.ob_model.specs.Names.{separator};
ghost use Rattle.ob_objects.specs.Store.{IsStore, directory_at};
ghost use Rattle.ob_lookup.specs.Prefixes.{ArePaths, IsPrefixAt};
ghost use Rattle.ob_lookup.specs.Closed.{IsClosed, IsViewThere};
ghost use Rattle.ob_lookup.specs.Onward.{Leads, reached_at, IsCutAt};
ghost use Rattle.ob_lookup.specs.Walk.{directory_of, shadow_at, text_of};

use crate::start::{Standpoint, Start, directory_of};
use crate::walk::{behind_separator, body, directory, is_own, named_at};
use ob_base::ObjId;
use ob_devmap::View;
use ob_dirs::Dir;
use ob_names::{Component, Name, first};
use ob_objects::{Store, StoredBody};
use ob_prefixes::{Cache, Prefix};
use ob_types::TypeSet;
use std::alloc::{AllocError, Global};

/// Where the walk of a text goes on: at the directory to which its prefix leads, by the cache, with the last component
/// alone; else where the walk through directories has come to, and what came so to the last component is put into the
/// cache. A text of one component has no prefix. Where memory runs out, for the key or for what is put, the cache stays
/// as it was.
pub(crate) fn onward<'a, T: TypeSet>(
    alloc: Global,
    cache: &mut Cache,
    store: &Store<T>,
    view: &View,
    start: Start<'a>,
    create: bool,
    fold: bool,
) -> Start<'a>
    requires closed { IsClosed store.now }
    requires view { IsViewThere store.now view.now }
    requires directory { IsSome (directory_at store.now (directory_of view.now start.place)) }
    requires paths { ArePaths T.Kind T T.Face T.Inner store.now cache.old }
    ensures directory { IsSome (directory_at store.now (directory_of view.now result.place)) }
    ensures leads { Leads T.Kind T T.Face T.Inner store.now view.now start.entry create fold
        result.place (text_of result) }
    ensures paths { ArePaths T.Kind T T.Face T.Inner store.now cache.new }
{
    let Some((front, last)) = split_start(&start) else {
        return start;
    };
    let Ok(prefix) = prefix_at(alloc, view, &start.place, front.as_slice(), fold) else {
        return start;
    };
    if let Some(directory) = cache.find(&prefix) {
        return Start {
            place: Standpoint::InDirectory(directory),
            behind: Some(last),
        };
    }
    let left = last.as_slice().len();
    let reached = to_last(store, view, start, left, create, fold);
    if let Some(directory) = directory_reached(&reached, left) {
        // where there is no memory for it, the answer is given without it
        drop(cache.put(prefix, directory));
    }
    reached
}

/// The prefix that is walked from a place of this view. The only error is out of memory.
fn prefix_at(
    alloc: Global,
    view: &View,
    place: &Standpoint,
    bytes: &[u8],
    fold: bool,
) -> Result<Prefix, AllocError>
    ensures prefix { IfOk result (λ prefix. IsPrefixAt view.now place.now fold bytes.now prefix) }
{
    let is_view = matches!(place, Standpoint::InView);
    Prefix::new(alloc, directory_of(view, place), is_view, bytes, fold)
}

/// The part before the last separator of a text that is walked, and its last component, which may be empty. None where
/// the text is one component, and so has no prefix.
fn split_start<'a>(start: &Start<'a>) -> Option<(Name<'a>, Name<'a>)>
    ensures parts { IfSome result (λ parts.
        IsCutAt start.now.behind parts.0 parts.1) }
    ensures none { IfNone result ((front last : List ℕ) → IsCutAt start.now.behind front last → ⊥) }
{
    let Some(behind) = &start.behind else {
        return None;
    };
    split_last(behind)
}

/// The part before the last separator of a name, and what follows it; none where it has no separator.
fn split_last<'a>(name: &Name<'a>) -> Option<(Name<'a>, Name<'a>)>
    ensures parts { IfSome result (λ parts. name.now ≡ parts.0 ++ separator ∷ parts.1) }
    ensures last { IfSome result (λ parts. All (λ b. b ≢ separator) parts.1) }
    ensures none { IfNone result (All (λ b. b ≢ separator) name.now) }
{
    let bytes = name.as_slice();
    let Some(at) = bytes.iter().rposition(|&byte| byte == b'\\') else {
        return None;
    };
    Some((Name::new(&bytes[..at]), Name::new(&bytes[at + 1..])))
}

/// Walks a text through directories, as long as more of it is left than so many bytes.
fn to_last<'a, T: TypeSet>(
    store: &Store<T>,
    view: &View,
    start: Start<'a>,
    last: usize,
    create: bool,
    fold: bool,
) -> Start<'a>
    requires closed { IsClosed store.now }
    requires view { IsViewThere store.now view.now }
    requires directory { IsSome (directory_at store.now (directory_of view.now start.place)) }
    ensures directory { IsSome (directory_at store.now (directory_of view.now result.place)) }
    ensures leads { Leads T.Kind T T.Face T.Inner store.now view.now start.entry create fold
        result.place (text_of result) }
{
    let mut at = start;
    let (mut dir, mut shadow) = directory(store, directory_of(view, &at.place));
    while let Some((next, entries, beneath)) = into_directory(
        store, view, &at, dir, shadow, last, create, fold,
    ) {
        at = next;
        dir = entries;
        shadow = beneath;
    }
    at
}

/// One component further, where more is left than so many bytes, and it names a directory: with the entries of this, and its
/// shadow, where it has one. None where it doesn't.
fn into_directory<'a, 's, T: TypeSet>(
    store: &'s Store<T>,
    view: &View,
    at: &Start<'a>,
    dir: &Dir,
    shadow: Option<ObjId>,
    last: usize,
    create: bool,
    fold: bool,
) -> Option<(Start<'a>, &'s Dir, Option<ObjId>)>
    requires closed { IsClosed store.now }
    requires view { IsViewThere store.now view.now }
    requires store { IsStore store.now }
    requires directory { directory_at store.now (directory_of view.now at.now.place)
        ≡ Some dir.now }
    requires shadow { shadow_at store.now (directory_of view.now at.now.place) ≡ shadow }
    ensures directory { IfSome result (λ next.
        directory_at store.now (directory_of view.now next.0.place) ≡ Some next.1.now) }
    ensures shadow { IfSome result (λ next.
        shadow_at store.now (directory_of view.now next.0.place) ≡ next.2) }
    ensures leads { IfSome result (λ next.
        Leads T.Kind T T.Face T.Inner store.now view.now at.now create fold
        next.0.place (text_of next.0)) }
    ensures shorter { IfSome result (λ next. length (text_of next.0) < length (text_of at.now)) }
{
    let Some(behind) = &at.behind else {
        return None;
    };
    let text = behind.as_slice();
    if text.len() <= last {
        return None;
    }
    let Component::One { name, rest } = first(text) else {
        return None;
    };
    let is_last = rest.is_empty();
    let own = is_own(is_last, create);
    let Some(object) = named_at(store, view, &at.place, dir, shadow, name, own, fold) else {
        return None;
    };
    let StoredBody::Directory(entries, beneath) = body(store, object) else {
        return None;
    };
    let next = Start {
        place: Standpoint::InDirectory(object),
        behind: behind_separator(Name::new(rest)),
    };
    Some((next, entries, *beneath))
}

/// The directory that a walk has come to, where exactly so many bytes are left after a separator.
fn directory_reached(reached: &Start<'_>, last: usize) -> Option<ObjId>
    ensures { result ≡ reached_at reached.now.place reached.now.behind last }
{
    match (&reached.place, &reached.behind) {
        (Standpoint::InDirectory(id), Some(behind)) if behind.as_slice().len() == last => Some(*id),
        _ => None,
    }
}
