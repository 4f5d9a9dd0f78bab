//! Viewers on threads of their own, beside a writer.

use crate::writer::{ROOT, Writer};
use ob_published::{Naming, Published};
use ob_view::{MOST_VIEWERS, Viewer};
use std::sync::Wait;
use std::sync::atomic::AtomicBool;
use std::sync::atomic::Ordering::SeqCst;
use std::sync::ledger::Ledger;
use std::thread::{Threads, for_each_mut, join};

/// Looks a name up so often; whether it always saw something, and the number of entries never fell.
fn looks<J: Naming>(viewer: &mut Viewer<J>, lookups: u32) -> bool {
    let mut last = 0;
    for _ in 0..lookups {
        match viewer.look_up(ROOT, b"A", true) {
            Some((_, number)) if number >= last => last = number,
            _ => return false,
        }
    }
    true
}

/// Has each viewer look a name up so often on a thread of its own; whether each was right.
fn all_look<R: Threads + Sync, J: Naming + Send + Sync>(
    rt: &R,
    viewers: &mut [Viewer<J>],
    lookups: u32,
) -> bool {
    let right = AtomicBool::new(true);
    for_each_mut(
        rt,
        viewers,
        MOST_VIEWERS as usize,
        &|_, viewer| {
            if !looks(viewer, lookups) {
                right.store(false, SeqCst);
            }
        },
    );
    right.load(SeqCst)
}

/// Makes a directory and closes it, 50 times, and publishes.
fn writes<R: Wait, W: Wait + Drop, L: Ledger, J: Naming>(
    writer: &mut Writer<'_, R, W, L, J>,
) -> Option<Published<J>> {
    for _ in 0..50 {
        let handle = writer.make(b"\\A")?;
        if !writer.closes(handle) {
            return None;
        }
    }
    writer.publish()
}

/// Publishes so often, every 100 steps.
fn writes_often<R: Wait, W: Wait + Drop, L: Ledger, J: Naming>(
    writer: &mut Writer<'_, R, W, L, J>,
    times: u32,
) -> Option<Published<J>> {
    for _ in 1..times {
        writes(writer)?;
    }
    writes(writer)
}

/// Publishes every 100 steps until a signal is given; whether each step was made.
fn writes_until<R: Wait, W: Wait + Drop, L: Ledger, J: Naming>(
    writer: &mut Writer<'_, R, W, L, J>,
    signal: &AtomicBool,
) -> bool {
    for _ in writer.rt.forever() {
        if writes(writer).is_none() {
            return false;
        }
        if signal.load(SeqCst) {
            return true;
        }
    }
    false
}

/// Whether a viewer that is given publications sees no fewer.
fn sees_told<J: Naming>(viewer: &mut Viewer<J>, published: &Published<J>) -> bool {
    viewer.told(published);
    match viewer.look_up(ROOT, b"A", true) {
        Some((object, number)) => object.is_none() && number >= published.number(),
        None => false,
    }
}

/// Whether each viewer sees all of these publications once they are handed to it.
fn all_see<J: Naming>(viewers: &mut [Viewer<J>], published: &Published<J>) -> bool {
    let mut right = true;
    for viewer in viewers.iter_mut() {
        right = sees_told(viewer, published) && right;
    }
    right
}

/// Has each viewer look a name up so often on a thread of its own, beside a writer that publishes so often; whether each was right, and all that is published.
fn beside<R: Threads + Wait + Sync, W: Wait + Drop, L: Ledger, J: Naming + Send + Sync>(
    writer: &mut Writer<'_, R, W, L, J>,
    viewers: &mut [Viewer<J>],
    lookups: u32,
    times: u32,
) -> (bool, Option<Published<J>>) {
    let rt = writer.rt;
    join(
        rt,
        || all_look(rt, viewers, lookups),
        || writes_often(writer, times),
    )
}

/// Whether two viewers on threads of their own look names up 1,000 times each beside a writer that publishes 100 times, and
/// always see something, never fewer entries than before, and no fewer than they are given.
pub(crate) fn sees_beside<
    R: Threads + Wait + Sync,
    W: Wait + Drop,
    L: Ledger,
    J: Naming + Send + Sync,
>(writer: &mut Writer<'_, R, W, L, J>, viewers: &mut [Viewer<J>]) -> Option<bool> {
    let (right, published) = beside(writer, viewers, 1_000, 100);
    Some(all_see(viewers, &published?) && right)
}

/// Has each viewer look a name up so often on a thread of its own, beside a writer that publishes every 100 steps until all have done so; whether each step was
/// made, and each viewer was right.
fn looks_until<R: Threads + Wait + Sync, W: Wait + Drop, L: Ledger, J: Naming + Send + Sync>(
    writer: &mut Writer<'_, R, W, L, J>,
    viewers: &mut [Viewer<J>],
    lookups: u32,
) -> bool {
    let (rt, done) = (writer.rt, AtomicBool::new(false));
    let (right, written) = join(
        rt,
        || {
            let right = all_look(rt, viewers, lookups);
            done.store(true, SeqCst);
            right
        },
        || writes_until(writer, &done),
    );
    right && written
}

/// Has viewers look a name up so many times each, beside a writer that publishes every 100 steps.
pub(crate) fn looks_beside<
    R: Threads + Wait + Sync,
    W: Wait + Drop,
    L: Ledger,
    J: Naming + Send + Sync,
>(writer: &mut Writer<'_, R, W, L, J>, viewers: &mut [Viewer<J>], lookups: u32) -> Option<bool> {
    let right = looks_until(writer, viewers, lookups);
    let published = writer.publish()?;
    Some(all_see(viewers, &published) && right)
}

/// Makes so many opens of a name that isn't there, each under the lock.
pub(crate) fn opens_often<R: Wait, W: Wait + Drop, L: Ledger, J: Naming>(
    writer: &mut Writer<'_, R, W, L, J>,
    lookups: u32,
) -> Option<bool> {
    for _ in 0..lookups {
        if writer.opens(b"\\A")? {
            return Some(false);
        }
    }
    Some(true)
}
