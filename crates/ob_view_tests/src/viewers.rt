//! Viewers of what is published, alone and beside a writer in another thread.

ghost use Rattle.std.specs.Prelude.{◌≡◌, [], List};
ghost use Rattle.ob_published.specs.declared.publication.Publication.{Publication as Made};

use ob_base::ObjId;
use ob_model::{Bytes, Row};
use ob_published::{Naming, Opened, Publication, Showing};
use ob_rows::{RowChange, RowTable};
use ob_view::Viewer;
use std::alloc::{AllocError, Global};
use std::collections::VecDeque;
use std::marker::Brand;
use std::sync::Wait;
use std::thread::{Threads, join};

const ROOT: ObjId = ObjId(1);

// The change of a turn: one turn adds a row, and the next takes it away.
fn change(alloc: Global, turn: u64) -> Result<RowChange, AllocError> {
    if turn % 2 == 1 {
        return Ok(RowChange::Gone(turn - 1));
    }
    Ok(RowChange::Added(Row {
        stamp: turn,
        directory: ROOT,
        name: Bytes::from_slice(alloc, b"Event")?,
        object: ObjId(turn / 2),
    }))
}

// The publication of a turn: three entries with one change.
fn publication(alloc: Global, turn: u64) -> Result<Publication, AllocError> {
    let mut changes = VecDeque::new(alloc);
    let change = change(alloc, turn)?;
    changes.push_back(change).map_err(|_| AllocError)?;
    Ok(Publication {
        entries: 3,
        changes,
    })
}

// Two tables with no row.
fn no_rows(alloc: Global) -> (RowTable, RowTable)
    ensures { (result.0 ≡ []) × (result.1 ≡ []) }
{
    (RowTable::new(alloc), RowTable::new(alloc))
}

// Records the publication of a turn.
fn records<J: Naming, R: Wait>(
    alloc: Global,
    showing: &mut Showing<J, &R>,
    turn: u64,
) -> Result<(), AllocError>
    requires { (publications : List Made) → J.leads publications }
{
    showing
        .record(publication(alloc, turn)?)
        .map_err(|_| AllocError)
}

// Publishes the changes of a turn, and returns how many entries are published then.
fn publishes<J: Naming, R: Wait>(
    alloc: Global,
    showing: &mut Showing<J, &R>,
    turn: u64,
) -> Result<u64, AllocError>
    requires { (publications : List Made) → J.leads publications }
{
    records(alloc, showing, turn)?;
    Ok(showing.show()?.number())
}

// Publishes so many turns.
fn publishes_all<J: Naming, R: Wait>(
    alloc: Global,
    showing: &mut Showing<J, &R>,
    turns: u64,
) -> Result<(), AllocError>
    requires { (publications : List Made) → J.leads publications }
{
    for turn in 0..turns {
        publishes(alloc, showing, turn)?;
    }
    Ok(())
}

// Whether a lookup finds this.
fn finds<J: Naming>(viewer: &mut Viewer<J>, fold: bool, object: Option<u64>, number: u64) -> bool {
    match viewer.look_up(ROOT, b"Event", fold) {
        Some((found, at)) => found.map(|object| object.0) == object && at == number,
        None => false,
    }
}

// Whether a lookup finds nothing to show.
fn is_blind<J: Naming>(viewer: &mut Viewer<J>) -> bool {
    viewer.look_up(ROOT, b"Event", false).is_none()
}

// Whether a lookup shows what is there after the entries that it tells of, and tells of no fewer than before; how many
// it tells of.
fn looks<J: Naming>(viewer: &mut Viewer<J>, before: u64) -> Option<u64> {
    let (found, number) = viewer.look_up(ROOT, b"EVENT", true)?;
    let there = number % 6 == 3;
    if number < before || found.is_some() != there {
        return None;
    }
    Some(number)
}

// Looks up so many times; whether each time it showed what it had to.
fn looks_often<J: Naming>(viewer: &mut Viewer<J>, times: u64) -> bool {
    let mut last = 0;
    for _ in 0..times {
        let Some(number) = looks(viewer, last) else {
            return false;
        };
        last = number;
    }
    true
}

// Whether a viewer sees a publication once it is shown.
fn sees_shown<J: Naming, R: Wait>(
    alloc: Global,
    showing: &mut Showing<J, &R>,
    viewer: &mut Viewer<J>,
) -> Result<bool, AllocError>
    requires { (publications : List Made) → J.leads publications }
{
    let before = finds(viewer, false, None, 0);
    let number = publishes(alloc, showing, 0)?;
    let after = finds(viewer, false, Some(0), 3) && finds(viewer, true, Some(0), 3);
    Ok(before && number == 3 && after && showing.rows().len() == 1)
}

// Whether it doesn't see one that is recorded alone, and sees nothing else once it knows of it.
fn waits_for_shown<J: Naming, R: Wait>(
    alloc: Global,
    showing: &mut Showing<J, &R>,
    viewer: &mut Viewer<J>,
) -> Result<bool, AllocError>
    requires { (publications : List Made) → J.leads publications }
{
    records(alloc, showing, 1)?;
    let behind = showing.is_behind() && showing.rows().len() == 1;
    let full = showing.record(publication(alloc, 2)?).is_err();
    let as_before = finds(viewer, false, Some(0), 3);
    viewer.told(&showing.published());
    let blind = is_blind(viewer);
    let number = showing.show()?.number();
    let shown = number == 6 && !showing.is_behind() && showing.rows().is_empty();
    Ok(behind && full && as_before && blind && shown && finds(viewer, true, None, 6))
}

// One viewer by turns with the writer.
fn by_turns<J: Naming, R: Wait>(rt: &R, alloc: Global, opened: Opened) -> Result<bool, AllocError>
    requires book { opened.seen.book ≡ J.book }
    requires opening { J.opening ≡ [] }
    requires leads { (publications : List Made) → J.leads publications }
{
    let mut showing: Showing<J, &R> = Showing::open(alloc, rt, opened, no_rows(alloc), 1)?;
    let mut viewer = Viewer::new(showing.seat()?);
    let sees = sees_shown(alloc, &mut showing, &mut viewer)?;
    Ok(sees && waits_for_shown(alloc, &mut showing, &mut viewer)?)
}

#[test]
fn a_viewer_sees_what_is_shown(rt: HostRuntime) {
    let seen = by_turns::<Brand, _>(&rt, rt.alloc(), Opened::new());
    assert_eq!(rt; seen.ok(), Some(true));
}

// Two viewers beside the writer, each in a thread; then one is given all that was published.
fn watched<J: Naming + Send + Sync, R: Threads + Wait + Sync>(
    rt: &R,
    alloc: Global,
    showing: &mut Showing<J, &R>,
    first: &mut Viewer<J>,
    second: &mut Viewer<J>,
) -> bool
    requires leads { (publications : List Made) → J.leads publications }
{
    let (published, (one, two)) = join(
        rt,
        || -> bool
            requires { (publications : List Made) → J.leads publications }
        { publishes_all(alloc, showing, 100).is_ok() },
        || join(
            rt,
            || looks_often(first, 1_000),
            || looks_often(second, 1_000),
        ),
    );
    published && one && two
}

fn beside<J: Naming + Send + Sync, R: Threads + Wait + Sync>(
    rt: &R,
    alloc: Global,
    opened: Opened,
) -> Result<bool, AllocError>
    requires book { opened.seen.book ≡ J.book }
    requires opening { J.opening ≡ [] }
    requires leads { (publications : List Made) → J.leads publications }
{
    let mut showing: Showing<J, &R> = Showing::open(alloc, rt, opened, no_rows(alloc), 2)?;
    let mut first = Viewer::new(showing.seat()?);
    let mut second = Viewer::new(showing.seat()?);
    let right = watched(rt, alloc, &mut showing, &mut first, &mut second);
    first.told(&showing.published());
    Ok(right && finds(&mut first, false, None, 300))
}

#[test]
fn viewers_beside_a_writer_never_go_back(rt: HostRuntime) {
    let seen = beside::<Brand, _>(&rt, rt.alloc(), Opened::new());
    assert_eq!(rt; seen.ok(), Some(true));
}
