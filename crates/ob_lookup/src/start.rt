//! Where a walk begins.

ghost use Rattle.std.specs.Prelude.{◌≡◌, ◌&&◌, not, ◌∷◌, ℕ, IsSome};
ghost use Rattle.std.specs.Option.{option_map, is_some};
ghost use Rattle.ob_model.specs.Names.{separator, begins_with_separator};
ghost use Rattle.ob_model.specs.Paths as paths;
ghost use Rattle.ob_objects.specs.Store.{directory_at};
ghost use Rattle.ob_lookup.specs.Closed.{IsClosed, IsRootThere, IsViewThere};
ghost use Rattle.ob_lookup.specs.Look.{IfWalk, Begins};
ghost use Rattle.ob_lookup.specs.Walk.{local_of, directory_of, place_of, text_of, start_behind_view, root_origin, absolute_origin, parses_at};

use crate::{Look, Remainder};
use ob_base::{ObjId, Status};
use ob_devmap::View;
use ob_model::Mode;
use ob_names::{Component, Name, first};
use ob_objects::{Store, StoredBody};
use ob_types::TypeSet;

/// The root directory, which `\` names.
pub(crate) const ROOT: ObjId = ObjId(1);

/// A place at which a walk searches for a component.
#[derive(Clone, Copy)]
pub(crate) enum Standpoint {
    /// A directory.
    InDirectory(ObjId),
    /// The view of the DOS device names, which `\??` names: its local directory, and then its global
    /// one.
    InView,
}

/// Where a walk begins, and over what: nothing, or a separator and what follows it.
#[derive(Drop)]
pub(crate) struct Start<'a> {
    /// The place.
    pub(crate) place: Standpoint,
    /// The part of the text after the separator that it begins with.
    pub(crate) behind: Option<Name<'a>>,
}

/// How a lookup begins.
#[derive(Drop)]
pub(crate) enum Beginning<'a> {
    /// With a walk.
    Walk(Start<'a>),
    /// It is over.
    Over(Look<'a>),
}

/// A view's local directory: that of the device map, or the global one where there is no map.
fn local_of(view: &View) -> ObjId
    ensures { result ≡ local_of view.now }
{
    view.local.unwrap_or(view.global)
}

/// The directory that a place is, a view being its local one.
pub(crate) fn directory_of(view: &View, place: &Standpoint) -> ObjId
    ensures { result ≡ directory_of view.now place.now }
{
    match place {
        Standpoint::InDirectory(id) => *id,
        Standpoint::InView => local_of(view),
    }
}

/// Where an absolute text begins: in the view where it is `\??` or begins with `\??\`, else at the root;
/// none where it begins with no separator.
pub(crate) fn absolute<'a>(view: &View, text: Name<'a>, create: bool) -> Option<Start<'a>>
    ensures { (p : ℕ) → option_map (λ start. (place_of p start, text_of start)) result
        ≡ absolute_origin view.now p create text.entry }
{
    match text.as_slice() {
        b"\\??" => Some(Start {
            place: Standpoint::InView,
            behind: None,
        }),
        [b'\\', b'?', b'?', b'\\', behind @ ..] => {
            Some(behind_view(view, Name::new(behind), create))
        }
        _ => from_root(text),
    }
}

/// Where a text begins that follows `\??\`: in the view, but a create whose last component it is
/// looks in the local directory alone.
fn behind_view<'a>(view: &View, behind: Name<'a>, create: bool) -> Start<'a>
    ensures { (p : ℕ) → (place_of p result, text_of result)
        ≡ start_behind_view view.now p create (separator ∷ behind.entry) }
{
    let place = if create && is_one_component(behind.as_slice()) {
        Standpoint::InDirectory(local_of(view))
    } else {
        Standpoint::InView
    };
    Start {
        place,
        behind: Some(behind),
    }
}

/// Whether what follows a separator is one component.
fn is_one_component(behind: &[u8]) -> bool
    ensures { result ≡ paths.is_one_component (separator ∷ behind.now) }
{
    match first(behind) {
        Component::One { rest, .. } => rest.is_empty(),
        Component::Empty => false,
    }
}

/// Where a text begins that names nothing in a view: at the root; none where it begins with no
/// separator.
fn from_root<'a>(text: Name<'a>) -> Option<Start<'a>>
    ensures { (p : ℕ) → option_map (λ start. (place_of p start, text_of start)) result
        ≡ root_origin text.entry }
{
    let (byte, behind) = text.as_slice().split_first()?;
    if *byte != b'\\' {
        return None;
    }
    let behind = if behind.is_empty() {
        None
    } else {
        Some(Name::new(behind))
    };
    Some(Start {
        place: Standpoint::InDirectory(ROOT),
        behind,
    })
}

/// Where a name begins: where the absolute name does, else at the object of the root handle, which must be a
/// directory, or be one whose kind parses, and then it is asked to parse the name, but not by a create.
pub(crate) fn begin<'a, T: TypeSet>(
    store: &Store<T>,
    view: &View,
    root: Option<ObjId>,
    name: Name<'a>,
    mode: Mode,
    left: u32,
) -> Beginning<'a>
    requires closed { IsClosed store.now }
    requires view { IsViewThere store.now view.now }
    requires root { IsRootThere store.now root }
    ensures directory { IfWalk result (λ start.
        IsSome (directory_at store.now (directory_of view.now start.place))) }
    ensures begins { Begins T.procedures store.now view.now mode left root name.entry result }
{
    let Some(id) = root else {
        let Some(start) = absolute(view, name, mode.create) else {
            return Beginning::Over(Look::Refused(Status::ObjectPathSyntaxBad));
        };
        return Beginning::Walk(start);
    };
    if begins_with_separator(name.as_slice()) {
        return Beginning::Over(Look::Refused(Status::ObjectPathSyntaxBad));
    }
    if is_directory(store, id) {
        return Beginning::Walk(relative(id, name));
    }
    if !is_asked(store, id, mode) {
        return Beginning::Over(Look::Refused(Status::ObjectTypeMismatch));
    }
    Beginning::Over(Look::Parse {
        object: id,
        rest: Remainder::lent(name),
        left,
    })
}

/// Whether an object is asked to parse a name relative to it: its kind parses, and nothing is to be created.
fn is_asked<T: TypeSet>(store: &Store<T>, id: ObjId, mode: Mode) -> bool
    ensures { result ≡ (not mode.create && parses_at T.procedures store.now id) }
{
    !mode.create && is_parsing(store, id)
}

/// Whether an object is one of the set whose kind parses.
fn is_parsing<T: TypeSet>(store: &Store<T>, id: ObjId) -> bool
    ensures { result ≡ parses_at T.procedures store.now id }
{
    let Some(object) = store.get(id) else {
        return false;
    };
    match &object.body {
        StoredBody::Directory(..) | StoredBody::Link(_) => false,
        StoredBody::Other { face, .. } => T::parses(T::kind_of(face)),
    }
}

/// Whether the first byte is a separator.
fn begins_with_separator(text: &[u8]) -> bool
    ensures { result ≡ begins_with_separator text.now }
{
    matches!(text, [b'\\', ..])
}

/// Where a name relative to a directory begins.
fn relative<'a>(directory: ObjId, name: Name<'a>) -> Start<'a>
    ensures directory { result.place ≡ Standpoint.InDirectory directory }
    ensures begins { (p : ℕ) → (place_of p result, text_of result)
        ≡ paths.relative directory name.entry }
{
    let behind = if name.as_slice().is_empty() {
        None
    } else {
        Some(name)
    };
    Start {
        place: Standpoint::InDirectory(directory),
        behind,
    }
}

/// Whether an object is a directory.
fn is_directory<T: TypeSet>(store: &Store<T>, id: ObjId) -> bool
    ensures { result ≡ is_some (directory_at store.now id) }
{
    match store.get(id) {
        Some(object) => matches!(object.body, StoredBody::Directory(..)),
        None => false,
    }
}
