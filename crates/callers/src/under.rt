//! Steps under the lock of four seats. Each is made once, and again where it is refused memory: then all has to be as it was.

ghost use Rattle.std.specs.Prelude.{◌≡◌};

use crate::asked::command_of;
use crate::rows::{BEFORE, How, ROWS};
use crate::written::{mark, put_entries, put_numbers};
use ob_base::{Proc, Status};
use ob_core::{Command, SlabTable};
use ob_device::{DeviceKind, DeviceSet};
use ob_shared::{
    Asked as Step, Journal, Locked as LockedOf, Parsed, Pass, Pending, Started, open_locked,
    seal_step, step,
};
use std::alloc::{AllocError, Global};
use std::io::Write;
use std::marker::Brand;
use std::mem;
use std::sync::ledger::{Blank, Ledger};

/// How many seats there are.
const SEATS: u32 = 4;

/// The state under the lock.
type Locked<L> = LockedOf<DeviceSet, SlabTable, L>;

/// How a step came.
#[derive(Clone, Copy, PartialEq, Eq)]
enum Came {
    /// It was replied to.
    Done(Status),
    /// Its open waits for a parse, and is then given up.
    Waits,
    /// A segment was sealed.
    Sealed,
    /// It was refused.
    Refused,
}

/// The names of what is seen of the namespace and a pass.
const NAMES: [&'static str; 7] = [
    "entries",
    "reserved places",
    "objects",
    "handles",
    "next process",
    "receipts of the pass",
    "the last of them",
];

/// The numbers of these.
type Numbers = [u64; 7];

/// The outcome of a row's step at last, what was seen then, and whether nothing had changed where it was refused
/// before.
#[derive(Clone, Copy)]
struct Trial {
    came: Came,
    numbers: Numbers,
    is_unchanged: bool,
}

/// The numbers of a namespace and a pass.
fn seen<L: Ledger>(locked: &Locked<L>, pass: &Pass<DeviceKind, L>) -> Numbers {
    let core = locked.core();
    [
        locked.len() as u64,
        locked.reserved() as u64,
        core.objects() as u64,
        core.handles() as u64,
        u64::from(core.next_process().0),
        pass.count() as u64,
        pass.last(),
    ]
}

/// Gives an open up; whether it was one that waits.
fn is_given_up<L: Ledger>(
    alloc: Global,
    locked: &mut Locked<L>,
    pass: &mut Pass<DeviceKind, L>,
    pending: Pending<DeviceSet>,
) -> bool {
    match step(alloc, locked, pass, Step::Abandon(pending)) {
        Ok(Started::Done(_)) => true,
        Ok(Started::Parsing(_parsing)) => unreachable!(),
        Err((_, None)) => false,
        Err((_, Some(_parsed))) => unreachable!(),
    }
}

/// Has a process ask, and gives up an open that waits then, by another pass; how it came, and what was seen before that.
fn asked<L: Ledger>(
    alloc: Global,
    locked: &mut Locked<L>,
    pass: &mut Pass<DeviceKind, L>,
    other: &mut Pass<DeviceKind, L>,
    process: Proc,
    command: &Command<DeviceKind>,
) -> (Came, Numbers) {
    match step(alloc, locked, pass, Step::Start(process, command)) {
        Ok(Started::Done(reply)) => (Came::Done(reply.status), seen(locked, pass)),
        Ok(Started::Parsing(parsing)) => {
            let numbers = seen(locked, pass);
            is_given_up(alloc, locked, other, Pending::Unrun(parsing));
            (Came::Waits, numbers)
        }
        Err((_, None)) => (Came::Refused, seen(locked, pass)),
        Err((_, Some(_parsed))) => unreachable!(),
    }
}

/// Has a process begin an open; its parse, run, where it waits for one.
fn begun<L: Ledger>(
    alloc: Global,
    locked: &mut Locked<L>,
    pass: &mut Pass<DeviceKind, L>,
    process: Proc,
    command: &Command<DeviceKind>,
) -> Option<Parsed<DeviceSet>> {
    match step(alloc, locked, pass, Step::Start(process, command)) {
        Ok(Started::Done(_)) => None,
        Ok(Started::Parsing(parsing)) => Some(parsing.run(alloc)),
        Err((_, None)) => None,
        Err((_, Some(_parsed))) => unreachable!(),
    }
}

/// Brings a parse; how it came, and the parse again where it was refused. An open that waits for another one is given up.
fn resumed<L: Ledger>(
    alloc: Global,
    locked: &mut Locked<L>,
    pass: &mut Pass<DeviceKind, L>,
    parsed: Parsed<DeviceSet>,
) -> Result<Came, Parsed<DeviceSet>> {
    match step(alloc, locked, pass, Step::Resume(parsed)) {
        Ok(Started::Done(reply)) => Ok(Came::Done(reply.status)),
        Ok(Started::Parsing(parsing)) => {
            is_given_up(alloc, locked, pass, Pending::Unrun(parsing));
            Ok(Came::Waits)
        }
        Err((_, None)) => unreachable!(),
        Err((_, Some(parsed))) => Err(parsed),
    }
}

/// Marks the end of a step, and of one that was refused whether nothing had changed.
fn mark_unchanged<W: Write>(writer: &mut W, is_unchanged: bool) {
    let changed = if is_unchanged {
        "nothing changed, then "
    } else {
        "CHANGED, then "
    };
    mark(writer, changed);
}

/// Brings a parse, again where it is refused.
fn bring<L: Ledger, W: Write>(
    writer: &mut W,
    alloc: Global,
    locked: &mut Locked<L>,
    pass: &mut Pass<DeviceKind, L>,
    parsed: Parsed<DeviceSet>,
) -> Trial {
    let before = seen(locked, pass);
    let parsed = match resumed(alloc, locked, pass, parsed) {
        Ok(came) => {
            mark(writer, " .. ");
            return Trial {
                came,
                numbers: seen(locked, pass),
                is_unchanged: true,
            };
        }
        Err(parsed) => parsed,
    };
    mark(writer, " .. refused, ");
    let is_unchanged = seen(locked, pass) == before;
    let came = match resumed(alloc, locked, pass, parsed) {
        Ok(came) => came,
        Err(parsed) => {
            is_given_up(alloc, locked, pass, Pending::Run(parsed));
            Came::Refused
        }
    };
    mark_unchanged(writer, is_unchanged);
    Trial {
        came,
        numbers: seen(locked, pass),
        is_unchanged,
    }
}

/// Has a process ask, again where it is refused.
fn ask<L: Ledger, W: Write>(
    writer: &mut W,
    alloc: Global,
    locked: &mut Locked<L>,
    pass: &mut Pass<DeviceKind, L>,
    other: &mut Pass<DeviceKind, L>,
    process: Proc,
    command: &Command<DeviceKind>,
) -> Trial {
    let before = seen(locked, pass);
    let (came, numbers) = asked(alloc, locked, pass, other, process, command);
    if came != Came::Refused {
        mark(writer, " .. ");
        return Trial {
            came,
            numbers,
            is_unchanged: true,
        };
    }
    mark(writer, " .. refused, ");
    let is_unchanged = numbers == before;
    let (came, numbers) = asked(alloc, locked, pass, other, process, command);
    mark_unchanged(writer, is_unchanged);
    Trial {
        came,
        numbers,
        is_unchanged,
    }
}

/// Seals the open segment, again where it is refused, and gives up the open that waits.
fn seal<L: Ledger, W: Write>(
    writer: &mut W,
    alloc: Global,
    locked: &mut Locked<L>,
    pass: &mut Pass<DeviceKind, L>,
    parsed: Parsed<DeviceSet>,
) -> Trial {
    let before = seen(locked, pass);
    let mut is_unchanged = true;
    let mut is_sealed = seal_step(alloc, locked).is_ok();
    if is_sealed {
        mark(writer, " .. ");
    } else {
        mark(writer, " .. refused, ");
        is_unchanged = seen(locked, pass) == before;
        is_sealed = seal_step(alloc, locked).is_ok();
        mark_unchanged(writer, is_unchanged);
    }
    let numbers = seen(locked, pass);
    is_given_up(alloc, locked, pass, Pending::Run(parsed));
    let came = if is_sealed {
        Came::Sealed
    } else {
        Came::Refused
    };
    Trial {
        came,
        numbers,
        is_unchanged,
    }
}

/// Makes a row's step; none where the open that it ends doesn't wait.
fn tried<L: Ledger, W: Write>(
    writer: &mut W,
    alloc: Global,
    locked: &mut Locked<L>,
    pass: &mut Pass<DeviceKind, L>,
    other: &mut Pass<DeviceKind, L>,
    (name, how): (&str, How),
    process: Proc,
    command: &Command<DeviceKind>,
) -> Option<Trial> {
    match how {
        How::Ask => {
            mark(writer, name);
            Some(ask(writer, alloc, locked, pass, other, process, command))
        }
        How::Bring => {
            let parsed = begun(alloc, locked, other, process, command)?;
            mark(writer, name);
            Some(bring(writer, alloc, locked, pass, parsed))
        }
        How::Seal => {
            let parsed = begun(alloc, locked, other, process, command)?;
            mark(writer, name);
            Some(seal(writer, alloc, locked, pass, parsed))
        }
    }
}

/// Makes the steps that come before each row; whether all were made.
fn is_ready<L: Ledger>(
    alloc: Global,
    locked: &mut Locked<L>,
    passes: &mut [Pass<DeviceKind, L>],
    other: &mut Pass<DeviceKind, L>,
) -> bool {
    for row in BEFORE.iter() {
        let (_, seat, process, _, what, path) = *row;
        let Some(pass) = passes.get_mut(seat) else {
            return false;
        };
        let Ok(command) = command_of(alloc, what, path) else {
            return false;
        };
        let (came, _) = asked(alloc, locked, pass, other, process, &command);
        mem::drop(command);
        if came != Came::Done(Status::Success) {
            return false;
        }
    }
    true
}

/// Writes the outcome of a step, and the journal after it; `false` if out of memory.
fn tell<W: Write>(
    writer: &mut W,
    alloc: Global,
    tried: &Trial,
    journal: (&Journal<DeviceKind>, usize),
) -> Result<(), AllocError> {
    let word = match tried.came {
        Came::Done(status) => status.text(),
        Came::Waits => "waits for a parse",
        Came::Sealed => "sealed",
        Came::Refused => "REFUSED AGAIN",
    };
    let mut text = format!(in alloc; "{word}")?;
    put_numbers(&mut text, &NAMES, &tried.numbers)?;
    let mut lines = Vec::new(alloc);
    lines.push(b'\n')?;
    put_entries(alloc, &mut lines, SEATS, journal)?;
    mark(writer, text.as_str());
    let _ = writer.write_all(lines.as_slice());
    Ok(())
}

/// Makes the step of the row at this place after the steps before it, and writes its outcome; whether that is as expected.
fn is_played<L: Ledger, W: Write>(
    writer: &mut W,
    alloc: Global,
    locked: &mut Locked<L>,
    passes: &mut [Pass<DeviceKind, L>],
    place: usize,
) -> Option<bool> {
    let (name, seat, process, how, what, path) = *ROWS.get(place)?;
    let Some((other, passes)) = passes.split_last_mut() else {
        return None;
    };
    if !is_ready(alloc, locked, passes, other) {
        return None;
    }
    let Some(pass) = passes.get_mut(seat) else {
        return None;
    };
    let Ok(command) = command_of(alloc, what, path) else {
        return None;
    };
    let tried = tried(
        writer,
        alloc,
        locked,
        pass,
        other,
        (name, how),
        process,
        &command,
    );
    // (by a call, since the drop of a command is long, and would be proved here on each way out)
    mem::drop(command);
    let tried = tried?;
    match tell(writer, alloc, &tried, (locked.journal(), locked.len())) {
        Ok(()) => Some(tried.is_unchanged && tried.came != Came::Refused),
        Err(_) => None,
    }
}

/// Opens a namespace of four seats, and plays the row at a place in it, if one is to be played; whether its outcome is as expected, and `None` if it could not be made.
fn look<L: Ledger, W: Write>(
    writer: &mut W,
    alloc: Global,
    blank: Blank,
    row: Option<usize>,
) -> Option<bool>
    requires name { blank.name ≡ L.name }
    requires parts { blank.parts ≡ L.parts }
    requires whole { L.parts ≡ 1024 }
{
    let opened = open_locked::<DeviceSet, SlabTable, L>(alloc, blank, DeviceSet, SEATS);
    let Ok((mut locked, mut passes)) = opened else {
        return None;
    };
    let came = match row {
        Some(place) => is_played(writer, alloc, &mut locked, passes.as_mut_slice(), place),
        None => Some(true),
    };
    // (by a call, since the drop of a namespace is long, and would be proved here anew)
    mem::drop(locked);
    came
}

/// The same, by a ledger of its own.
fn look_at<W: Write>(writer: &mut W, alloc: Global, row: Option<usize>) -> Option<bool> {
    look::<Brand, W>(writer, alloc, Blank::new(1024), row)
}

/// Opens a namespace, again if that is refused memory, and writes the outcome; whether that is as expected.
fn is_opened<W: Write>(writer: &mut W, alloc: Global) -> bool {
    mark(writer, "four seats opened");
    if look_at(writer, alloc, None).is_some() {
        mark(writer, " .. ");
        mark(writer, "four passes");
        mark(writer, "\n");
        return true;
    }
    mark(writer, " .. refused, ");
    let is_opened = look_at(writer, alloc, None).is_some();
    mark(writer, "nothing changed, then ");
    mark(writer, "four passes");
    mark(writer, "\n");
    is_opened
}

/// Makes each of the steps, or the one at this place, from 1; the first is the opening of a namespace. Whether all outcomes are as expected is
/// returned, and written in a last line.
pub(crate) fn are_tried<W: Write>(writer: &mut W, alloc: Global, asked: Option<usize>) -> bool {
    let mut are_right = true;
    if asked.is_none() || asked == Some(1) {
        are_right = is_opened(writer, alloc);
    }
    for place in 0..ROWS.len() {
        if asked.is_none() || asked == Some(place.saturating_add(2)) {
            are_right = look_at(writer, alloc, Some(place)) == Some(true) && are_right;
        }
    }
    let last = if are_right {
        "each step was made, or changed nothing\n"
    } else {
        "a step changed something, or could not be made\n"
    };
    mark(writer, last);
    are_right
}
