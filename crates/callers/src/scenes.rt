//! Scenes: callers who share a namespace, from its opening to its close.

ghost use Rattle.std.specs.Prelude.{◌≡◌};

use crate::caller::Caller;
use crate::threads::{Deed, Play, at_once};
use crate::written::{mark, put_journal, put_numbers};
use ob_core::SlabTable;
use ob_device::{DeviceKind, DeviceSet};
use ob_shared::{Ended, Mismatch, Pass, open_shared};
use std::alloc::Global;
use std::io::Write;
use std::marker::Brand;
use std::mem;
use std::sync::Wait;
use std::sync::ledger::{Blank, Ledger};
use std::thread::Threads;
use std::time::Clock;

/// A scene: how many callers there are, what they do, and whose passes are handed to the close.
#[derive(Clone, Copy)]
pub(crate) struct Scene {
    seats: u32,
    deed: Deed,
    /// Whether the passes of seats 0 and 1 are handed over; all others are.
    handed: (bool, bool),
    /// Whether the lines of the journal are wanted.
    is_written: bool,
}

/// Of a scene of two callers, whose journal is the same each time, its name, what they do, and whose passes are handed over.
type OfTwo = (&'static str, Deed, (bool, bool));

/// The scenes that are the same each time.
const SCENES: [OfTwo; 7] = [
    (
        "another caller is answered while one waits in its gate",
        Deed::Meet,
        (true, true),
    ),
    (
        "a close without the pass of seat 1, which made steps",
        Deed::Work(1),
        (true, false),
    ),
    (
        "a close without that pass, which made none",
        Deed::Work(0),
        (true, false),
    ),
    (
        "a close without the pass of seat 0, which made steps",
        Deed::Work(0),
        (false, true),
    ),
    ("a close without any pass", Deed::Work(1), (false, false)),
    ("a close with both passes", Deed::Work(1), (true, true)),
    (
        "segments sealed while an open waits, and one without entries",
        Deed::Seal,
        (true, true),
    ),
];

/// The scene in which so many callers do this, and hand over their passes.
pub(crate) fn of_many(seats: u32, deed: Deed, is_written: bool) -> Scene {
    Scene {
        seats,
        deed,
        handed: (true, true),
        is_written,
    }
}

/// A namespace after its close.
#[derive(Clone, Copy)]
struct Seen {
    /// Where passes and journal differ.
    mismatch: Option<Mismatch>,
    /// How many entries the journal has.
    entries: usize,
    /// Whether every step had its expected outcome.
    is_right: bool,
}

/// The passes of callers that are to be handed over, and all lines that callers have written.
fn passes_of<L: Ledger>(
    alloc: Global,
    callers: Vec<Caller<L>>,
    handed: (bool, bool),
) -> (Vec<Pass<DeviceKind, L>>, Vec<u8>) {
    let mut passes = Vec::new(alloc);
    let mut lines = Vec::new(alloc);
    for caller in callers {
        let _ = lines.extend_from_slice(caller.lines.as_slice());
        let seat = caller.seat();
        let is_kept = (seat == 0 && !handed.0) || (seat == 1 && !handed.1);
        if let (Some(pass), false) = (caller.pass, is_kept) {
            let _ = passes.push(pass);
        }
    }
    (passes, lines)
}

/// Closes a namespace and drops it, and adds the lines of its journal after others.
fn seen_at_close(
    alloc: Global,
    lines: &mut Vec<u8>,
    scene: &Scene,
    ended: Result<Ended<DeviceSet, SlabTable>, Mismatch>,
) -> Seen {
    match ended {
        Ok(ended) => {
            let (sealed, open) = (ended.sealed.as_slice(), &ended.journal);
            let before = (open.first as usize).saturating_sub(1);
            let entries = before.saturating_add(open.entries.len());
            let is_right = !scene.is_written
                || put_journal(alloc, lines, scene.seats, sealed, open).is_ok();
            // (by a call, since the drop of a namespace is long, and would be proved here anew)
            mem::drop(ended);
            Seen {
                mismatch: None,
                entries,
                is_right,
            }
        }
        Err(mismatch) => Seen {
            mismatch: Some(mismatch),
            entries: 0,
            is_right: true,
        },
    }
}

/// Opens a namespace, plays a scene in it, and closes it; `None` if it can't be opened.
fn see_in<R: Threads + Wait + Clock + Sync, L: Ledger + Send + Sync>(
    rt: &R,
    alloc: Global,
    blank: Blank,
    scene: &Scene,
    lines: &mut Vec<u8>,
) -> Option<Seen>
    requires name { blank.name ≡ L.name }
    requires parts { blank.parts ≡ L.parts }
    requires whole { L.parts ≡ 1024 }
{
    let opened = open_shared::<DeviceSet, SlabTable, L>(alloc, blank, DeviceSet, scene.seats);
    let Ok((space, passes)) = opened else {
        return None;
    };
    let play = Play::new(scene.deed);
    let (passes, written) = match at_once(rt, alloc, &space, passes, &play) {
        Ok(callers) => passes_of(alloc, callers, scene.handed),
        Err(_) => (Vec::new(alloc), Vec::new(alloc)),
    };
    let mut seen = seen_at_close(alloc, lines, scene, space.close(passes));
    let is_front = lines.as_slice().starts_with(written.as_slice());
    seen.is_right = seen.is_right && is_front && !play.is_failed();
    Some(seen)
}

/// The same, by a ledger of its own.
fn see<R: Threads + Wait + Clock + Sync>(
    rt: &R,
    alloc: Global,
    scene: &Scene,
    lines: &mut Vec<u8>,
) -> Option<Seen> {
    see_in::<_, Brand>(rt, alloc, Blank::new(1024), scene, lines)
}

/// The outcome of a scene: how many entries its journal has, or where passes and journal differ.
fn told_of(alloc: Global, seen: &Seen) -> Option<String> {
    let mut text = String::new(alloc);
    let put = match seen.mismatch {
        Some(
            Mismatch {
                seat,
                in_journal,
                in_pass,
            },
        ) => put_numbers(
            &mut text,
            &["seat", "first entry in the journal", "first in its pass"],
            &[u64::from(seat), in_journal, in_pass],
        ),
        None => put_numbers(&mut text, &["entries"], &[seen.entries as u64]),
    };
    match put {
        Ok(()) => Some(text),
        Err(_) => None,
    }
}

/// Plays a scene, and writes its outcome and its journal; whether that is the expected outcome.
fn is_told<R: Threads + Wait + Clock + Sync, W: Write>(
    rt: &R,
    writer: &mut W,
    alloc: Global,
    name: &str,
    scene: &Scene,
) -> bool {
    let mut lines = Vec::new(alloc);
    let Some(seen) = see(rt, alloc, scene, &mut lines) else {
        return false;
    };
    let Some(text) = told_of(alloc, &seen) else {
        return false;
    };
    mark(writer, name);
    mark(writer, text.as_str());
    mark(writer, "\n");
    writer.write_all(lines.as_slice()).is_ok() && seen.is_right
}

/// Plays the scenes that are the same each time, and writes their outcomes; whether those are as expected.
pub(crate) fn are_told<R: Threads + Wait + Clock + Sync, W: Write>(
    rt: &R,
    writer: &mut W,
    alloc: Global,
) -> bool {
    let mut are_told = true;
    for of_two in SCENES.iter() {
        let (name, deed, handed) = *of_two;
        let scene = Scene {
            seats: 2,
            deed,
            handed,
            is_written: true,
        };
        are_told = is_told(rt, writer, alloc, name, &scene) && are_told;
    }
    are_told
}

/// Plays a scene of many callers, and writes its journal, or how many entries that has; whether the outcome is as expected.
pub(crate) fn are_made<R: Threads + Wait + Clock + Sync, W: Write>(
    rt: &R,
    writer: &mut W,
    alloc: Global,
    scene: &Scene,
) -> bool {
    if !scene.is_written {
        return is_told(rt, writer, alloc, "callers make rounds", scene);
    }
    let mut lines = Vec::new(alloc);
    match see(rt, alloc, scene, &mut lines) {
        Some(seen) => writer.write_all(lines.as_slice()).is_ok() && seen.is_right,
        None => false,
    }
}
