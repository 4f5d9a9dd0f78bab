//! Whole paths that a viewer resolves.

ghost use Rattle.std.specs.Prelude.{◌≡◌, [], List};
ghost use Rattle.ob_published.specs.declared.publication.Publication.{Publication as Made};

use ob_base::ObjId;
use ob_model::{Bytes, Row};
use ob_published::{Naming, Opened, Publication, Showing};
use ob_rows::{RowChange, RowTable};
use ob_view::Viewer;
use std::alloc::{AllocError, Global};
use std::collections::VecDeque;
use std::marker::Brand;
use std::sync::Wait;

// The entries of the namespace: each a directory, a name in it, and the object. Object 5 is a link to object 2: no directory has its number.
const ENTRIES: [(u64, &[u8], u64); 6] = [
    (1, b"Device", 2),
    (2, b"Harddisk0", 3),
    (3, b"Partition1", 4),
    (1, b"Link", 5),
    (1, b"??", 6),
    (6, b"C:", 7),
];

// Paths, each with whether its case is folded, and the object at its end.
const CASES: [(&[u8], bool, Option<u64>); 24] = [
    // the root
    (b"\\", false, Some(1)),
    (b"\\", true, Some(1)),
    // one component
    (b"\\Device", false, Some(2)),
    (b"\\device", true, Some(2)),
    (b"\\device", false, None),
    // several
    (b"\\Device\\Harddisk0", false, Some(3)),
    (b"\\Device\\Harddisk0\\Partition1", false, Some(4)),
    (b"\\DEVICE\\harddisk0\\PARTITION1", true, Some(4)),
    (b"\\Device\\harddisk0\\Partition1", false, None),
    // a name that begins as another
    (b"\\Dev", true, None),
    (b"\\Device\\Harddisk01", true, None),
    // a component that is missing, the last one or before it
    (b"\\Device\\Harddisk1", true, None),
    (b"\\Devices\\Harddisk0", true, None),
    // a link is an entry, and isn't followed
    (b"\\Link", false, Some(5)),
    (b"\\Link\\Harddisk0", false, None),
    // `\??` is a name as any other
    (b"\\??", false, Some(6)),
    (b"\\??\\c:", true, Some(7)),
    // paths that aren't absolute
    (b"", false, None),
    (b"Device", false, None),
    (b"Device\\Harddisk0", false, None),
    // an empty component
    (b"\\\\", false, None),
    (b"\\Device\\\\Harddisk0", false, None),
    (b"\\\\Device", false, None),
    // a separator at the end
    (b"\\Device\\", false, None),
];

// The bytes of a component that is longer than any name.
const LONG: usize = 40_000;

// The rows of the entries, by stamps from 0 on, as changes.
fn changes(alloc: Global) -> Result<VecDeque<RowChange>, AllocError> {
    let mut changes = VecDeque::new(alloc);
    for (place, (directory, name, object)) in ENTRIES.iter().enumerate() {
        let row = Row {
            stamp: place as u64,
            directory: ObjId(*directory),
            name: Bytes::from_slice(alloc, name)?,
            object: ObjId(*object),
        };
        changes
            .push_back(RowChange::Added(row))
            .map_err(|_| AllocError)?;
    }
    Ok(changes)
}

// Publishes the entries.
fn publishes<J: Naming, R: Wait>(
    alloc: Global,
    showing: &mut Showing<J, &R>,
) -> Result<u64, AllocError>
    requires { (publications : List Made) → J.leads publications }
{
    let publication = Publication {
        entries: 6,
        changes: changes(alloc)?,
    };
    showing.record(publication).map_err(|_| AllocError)?;
    Ok(showing.show()?.number())
}

// Whether a viewer resolves a path to an object after so many entries.
fn resolves<J: Naming>(
    viewer: &mut Viewer<J>,
    path: &[u8],
    fold: bool,
    object: Option<u64>,
    entries: u64,
) -> bool {
    match viewer.resolve(path, fold) {
        Some((found, number)) => found.map(|object| object.0) == object && number == entries,
        None => false,
    }
}

// Whether it resolves each of the paths.
fn resolves_all<J: Naming>(viewer: &mut Viewer<J>) -> bool {
    for (path, fold, object) in &CASES {
        if !resolves(viewer, path, *fold, *object, 6) {
            return false;
        }
    }
    true
}

// A path of one component that is longer than any name.
fn long_path(alloc: Global) -> Result<Vec<u8>, AllocError> {
    let mut path = Vec::new(alloc);
    path.push(b'\\')?;
    for _ in 0..LONG {
        path.push(b'a')?;
    }
    Ok(path)
}

// Whether a viewer that sees no entry resolves the root alone, and once they are published each path.
fn resolves_shown<J: Naming, R: Wait>(
    rt: &R,
    alloc: Global,
    opened: Opened,
) -> Result<bool, AllocError>
    requires book { opened.seen.book ≡ J.book }
    requires opening { J.opening ≡ [] }
    requires leads { (publications : List Made) → J.leads publications }
{
    let tables = (RowTable::new(alloc), RowTable::new(alloc));
    let mut showing: Showing<J, &R> = Showing::open(alloc, rt, opened, tables, 1)?;
    let mut viewer = Viewer::new(showing.seat()?);
    let root = resolves(&mut viewer, b"\\", false, Some(1), 0);
    let none = resolves(&mut viewer, b"\\Device", false, None, 0);
    let published = publishes(alloc, &mut showing)? == 6;
    let long = long_path(alloc)?;
    let missing = resolves(&mut viewer, long.as_slice(), true, None, 6);
    Ok(root && none && published && missing && resolves_all(&mut viewer))
}

#[test]
fn paths_are_resolved_by_own_entries(rt: HostRuntime) {
    let seen = resolves_shown::<Brand, _>(&rt, rt.alloc(), Opened::new());
    assert_eq!(rt; seen.ok(), Some(true));
}
