//! Lookups of names that are there, among few rows or many, whose instructions are counted.

use crate::writer::{Writer, numbered};
use ob_published::Naming;
use ob_view::Viewer;
use std::sync::Wait;
use std::sync::ledger::Ledger;

/// The directories above the names, each in the one before it.
const PARENTS: [&[u8]; 3] = [b"\\A", b"\\A\\B", b"\\A\\B\\C"];

/// The last of them, in which the names are.
const PARENT: &[u8] = b"\\A\\B\\C";

/// The absolute path of the name of a number, of which six digits count.
fn path_of(number: u32) -> [u8; 13] {
    let mut path = *b"\\A\\B\\C\\000000";
    for (place, digit) in numbered(number).iter().enumerate() {
        path[7 + place] = *digit;
    }
    path
}

/// Makes directories under the names of the numbers below this one, and publishes them. Permanent directories have no handle, of which a
/// process has no more than 65,535.
fn fill<R: Wait, W: Wait + Drop, L: Ledger, J: Naming>(
    writer: &mut Writer<'_, R, W, L, J>,
    rows: u32,
) -> Option<()> {
    for parent in PARENTS {
        writer.keep(parent)?;
    }
    for number in 0..rows {
        writer.keep(&path_of(number))?;
    }
    writer.publish()?;
    Some(())
}

/// Looks so many times for one after another of so many names of a directory; how many were found.
pub(crate) fn finds<R: Wait, W: Wait + Drop, L: Ledger, J: Naming>(
    writer: &mut Writer<'_, R, W, L, J>,
    viewer: &mut Viewer<J>,
    rows: u32,
    lookups: u32,
) -> Option<u32> {
    fill(writer, rows)?;
    let directory = viewer.resolve(PARENT, false)?.0?;
    let mut found = 0u32;
    for lookup in 0..lookups {
        let name = numbered(lookup.checked_rem(rows)?);
        if viewer.look_up(directory, &name, false)?.0.is_some() {
            found = found.saturating_add(1);
        }
    }
    Some(found)
}

/// Resolves so many times the path of one after another of so many names below three directories; how many were found.
pub(crate) fn resolves<R: Wait, W: Wait + Drop, L: Ledger, J: Naming>(
    writer: &mut Writer<'_, R, W, L, J>,
    viewer: &mut Viewer<J>,
    rows: u32,
    lookups: u32,
) -> Option<u32> {
    fill(writer, rows)?;
    let mut found = 0u32;
    for lookup in 0..lookups {
        let path = path_of(lookup.checked_rem(rows)?);
        if viewer.resolve(&path, false)?.0.is_some() {
            found = found.saturating_add(1);
        }
    }
    Some(found)
}
