//! Rows that come and go: what is found among them is what a search of a plain list finds.

use ob_base::ObjId;
use ob_model::{Bytes, Row};
use ob_rows::{RowChange, RowTable};
use std::alloc::{AllocError, Global};

// Names of which the first two differ by the case of letters alone.
fn name(pick: u64) -> &'static [u8] {
    match pick % 4 {
        0 => b"Event",
        1 => b"EVENT",
        2 => b"Events",
        _ => b"a name of more than sixteen bytes",
    }
}

// A row as the plain list has it.
#[derive(Clone, Copy, PartialEq, Eq, Debug)]
struct Listed {
    stamp: u64,
    directory: u64,
    pick: u64,
}

// Whether two names are equal.
fn is_same(a: u64, b: u64, fold: bool) -> bool {
    a == b || (fold && a < 2 && b < 2)
}

// The result of a search of the list: the stamp of the first row that matches. The object of a row is half its stamp.
fn searched(rows: &[Listed], directory: u64, pick: u64, fold: bool) -> Option<u64> {
    for row in rows {
        if row.directory == directory && is_same(row.pick, pick, fold) {
            return Some(row.stamp);
        }
    }
    None
}

// Whether the table finds what the list's search does.
fn agrees_at(table: &RowTable, rows: &[Listed], directory: u64, pick: u64, fold: bool) -> bool {
    let listed = searched(rows, directory, pick, fold);
    match table.find(ObjId(directory), name(pick), fold) {
        Some((stamp, object)) => listed == Some(stamp) && object.0 == stamp / 2,
        None => listed.is_none(),
    }
}

// Whether it does so in each directory and under each name, and has as many rows.
fn agrees(table: &RowTable, rows: &[Listed]) -> bool {
    for case in 0..32u64 {
        if !agrees_at(table, rows, case / 8 + 1, case % 4, case % 8 >= 4) {
            return false;
        }
    }
    table.len() == rows.len()
}

// Adds a row to both.
fn add(
    alloc: Global,
    table: &mut RowTable,
    rows: &mut Vec<Listed>,
    listed: Listed,
) -> Result<bool, AllocError> {
    let row = Row {
        stamp: listed.stamp,
        directory: ObjId(listed.directory),
        name: Bytes::from_slice(alloc, name(listed.pick))?,
        object: ObjId(listed.stamp / 2),
    };
    if !table.accepts(row.stamp) {
        return Ok(false);
    }
    rows.push(listed).map_err(|_| AllocError)?;
    if listed.stamp % 2 == 0 {
        table.add(row)?;
    } else {
        table.apply(&RowChange::Added(row))?;
    }
    Ok(table.has(listed.stamp))
}

// Takes a stamp away from both; whether the table hands back its row.
fn take(table: &mut RowTable, rows: &mut Vec<Listed>, stamp: u64) -> bool {
    let there = rows.iter().any(|row| row.stamp == stamp);
    rows.retain(|row| row.stamp != stamp);
    let told = match table.row_of(stamp) {
        Some(row) => row.stamp == stamp && there,
        None => !there,
    };
    let taken = table.remove(stamp).is_some();
    told && taken == there && !table.has(stamp)
}

// Plays steps that numbers choose; whether the table and the list agreed after each.
fn plays(alloc: Global, steps: u64) -> Result<bool, AllocError> {
    let mut table = RowTable::new(alloc);
    let mut rows = Vec::new(alloc);
    let mut chosen = 7u64;
    for step in 0..steps {
        chosen = chosen
            .wrapping_mul(6_364_136_223_846_793_005)
            .wrapping_add(1_442_695_040_888_963_407);
        let done = if (chosen >> 60) < 7 {
            take(&mut table, &mut rows, (chosen >> 20) % (step + 1))
        } else {
            let listed = Listed {
                stamp: step,
                directory: (chosen >> 40) % 4 + 1,
                pick: (chosen >> 30) % 4,
            };
            add(alloc, &mut table, &mut rows, listed)?
        };
        if !done || !agrees(&table, rows.as_slice()) {
            return Ok(false);
        }
    }
    Ok(true)
}

#[test]
fn rows_are_found_as_a_search_finds_them(rt: HostRuntime) {
    assert_eq!(rt; plays(rt.alloc(), 400).ok(), Some(true));
}

// So many stamps are used, except the first, which is no row's, and this is the last.
const MANY: u64 = 5_000;

const LAST: u64 = MANY - 1;

// Whether a table of many rows in one directory finds the last of them, loses it by a change, and refuses its
// stamp.
fn last_of_many(alloc: Global) -> Result<bool, AllocError> {
    let mut table = RowTable::new(alloc);
    for stamp in 1..MANY {
        let digits = stamp.to_be_bytes();
        let row = Row {
            stamp,
            directory: ObjId(1),
            name: Bytes::from_slice(alloc, &digits)?,
            object: ObjId(stamp),
        };
        if !table.accepts(stamp) {
            return Ok(false);
        }
        table.add(row)?;
    }
    let digits = LAST.to_be_bytes();
    let found = table.find(ObjId(1), &digits, false) == Some((LAST, ObjId(LAST)));
    table.apply(&RowChange::Gone(LAST))?;
    let gone = table.find(ObjId(1), &digits, true).is_none();
    Ok(found && gone && !table.accepts(LAST) && table.accepts(MANY))
}

#[test]
fn the_last_of_many_is_found(rt: HostRuntime) {
    assert_eq!(rt; last_of_many(rt.alloc()).ok(), Some(true));
}
