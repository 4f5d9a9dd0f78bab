//! Publishes that run out of memory.

use crate::writer::{Writer, component_of, sees};
use ob_published::Naming;
use ob_view::Viewer;
use std::sync::Wait;
use std::sync::ledger::Ledger;

/// The names of the root that are made, with a publish after each.
const NAMES: [&[u8]; 9] = [
    b"\\A", b"\\B", b"\\C", b"\\D", b"\\E", b"\\F", b"\\G", b"\\H", b"\\I",
];

/// Whether viewers see what they saw after each publish that runs out of memory, and the next publish shows all. A step that runs
/// out of memory is made again.
pub(crate) fn catches_up<R: Wait, W: Wait + Drop, L: Ledger, J: Naming>(
    writer: &mut Writer<'_, R, W, L, J>,
    viewer: &mut Viewer<J>,
) -> Option<bool> {
    for (entries, name) in NAMES.iter().enumerate() {
        if !comes(writer, viewer, name, entries as u64)? {
            return Some(false);
        }
    }
    Some(true)
}

/// Makes a directory and publishes it; whether the viewer sees it from the first publish that succeeds on.
fn comes<R: Wait, W: Wait + Drop, L: Ledger, J: Naming>(
    writer: &mut Writer<'_, R, W, L, J>,
    viewer: &mut Viewer<J>,
    name: &[u8],
    entries: u64,
) -> Option<bool> {
    if writer.make(name).is_none() {
        writer.make(name)?;
    }
    let component = component_of(name);
    if writer.publish().is_none() {
        if !sees(viewer, component, false, entries) {
            return Some(false);
        }
        writer.publish()?;
    }
    Some(sees(viewer, component, true, entries.saturating_add(1)))
}
