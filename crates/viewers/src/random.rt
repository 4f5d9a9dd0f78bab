//! Random steps and publishes.

use crate::writer::{Writer, component_of, sees};
use ob_base::Handle;
use ob_published::Naming;
use ob_view::Viewer;
use std::sync::Wait;
use std::sync::ledger::Ledger;

/// The names of the root that come and go.
const NAMES: [&[u8]; 6] = [b"\\A", b"\\B", b"\\C", b"\\D", b"\\E", b"\\F"];

/// The steps.
const STEPS: u32 = 2_000;

/// Of so many steps one is a publish, on average.
const TURNS: u32 = 16;

/// The first of the random numbers, which is not 0. Each next one is made by three shifts, of so many bits: to the left, to the right, and to the left again.
const SEED: u32 = 2_463_534_242;

const FIRST_LEFT: u32 = 13;

const RIGHT: u32 = 17;

const SECOND_LEFT: u32 = 5;

/// The names that are there, each with its handle, and the number of entries.
#[derive(Clone, Copy)]
struct Names {
    handles: [Option<Handle>; 6],
    entries: u64,
}

/// The random number after this one: after each shift the number and the shifted one are joined by exclusive or.
fn next(seed: u32) -> u32 {
    let mut seed = seed;
    seed ^= seed << FIRST_LEFT;
    seed ^= seed >> RIGHT;
    seed ^ (seed << SECOND_LEFT)
}

/// Whether a viewer sees the names that were there at the last publish after each of many random steps, some of which are
/// publishes.
pub(crate) fn sees_published<R: Wait, W: Wait + Drop, L: Ledger, J: Naming>(
    writer: &mut Writer<'_, R, W, L, J>,
    viewer: &mut Viewer<J>,
) -> Option<bool> {
    let mut now = Names {
        handles: [None; 6],
        entries: 0,
    };
    let mut shown = now;
    let mut seed = SEED;
    for _ in 0..STEPS {
        seed = next(seed);
        if seed % TURNS == 0 {
            writer.publish()?;
            shown = now;
        } else {
            turn(writer, &mut now, seed)?;
        }
        if !sees_names(viewer, &shown) {
            return Some(false);
        }
    }
    Some(true)
}

/// A step: a name comes or goes.
fn turn<R: Wait, W: Wait + Drop, L: Ledger, J: Naming>(
    writer: &mut Writer<'_, R, W, L, J>,
    names: &mut Names,
    seed: u32,
) -> Option<()> {
    let place = (seed / TURNS % 6) as usize;
    names.handles[place] = match names.handles[place] {
        Some(handle) => {
            if !writer.closes(handle) {
                return None;
            }
            None
        }
        None => Some(writer.make(NAMES[place])?),
    };
    names.entries = names.entries.saturating_add(1);
    Some(())
}

/// Whether a viewer sees these names.
fn sees_names<J: Naming>(viewer: &mut Viewer<J>, names: &Names) -> bool {
    for (place, name) in NAMES.iter().enumerate() {
        let there = names.handles[place].is_some();
        if !sees(viewer, component_of(name), there, names.entries) {
            return false;
        }
    }
    true
}
