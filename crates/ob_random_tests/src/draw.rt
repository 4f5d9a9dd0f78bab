//! The next turn, at random.

use crate::dice::Dice;
use ob_flat_model::{
    Ask, CASE_INSENSITIVE, Deed, EXCLUSIVE, FlatKind, FlatName, FlatPart, FlatPath, INHERIT,
    LARGEST_ROOM, Model, OPENIF, OPENLINK, PERMANENT,
};

// The number of the last object of those that every game begins with.
const LAST_BUILT: u32 = 9;

// The flags of creates, of which up to three come together; one of them is unlawful.
const MAKE_FLAGS: [u32; 20] = [
    0,
    0,
    0,
    0,
    0,
    INHERIT,
    INHERIT,
    INHERIT,
    PERMANENT,
    PERMANENT,
    EXCLUSIVE,
    EXCLUSIVE,
    CASE_INSENSITIVE,
    CASE_INSENSITIVE,
    OPENIF,
    OPENIF,
    OPENIF,
    OPENIF,
    OPENLINK,
    0x1,
];

// The flags of opens.
const OPEN_FLAGS: [u32; 20] = [
    0,
    0,
    0,
    0,
    0,
    0,
    0,
    0,
    INHERIT,
    INHERIT,
    INHERIT,
    PERMANENT,
    EXCLUSIVE,
    CASE_INSENSITIVE,
    CASE_INSENSITIVE,
    CASE_INSENSITIVE,
    OPENIF,
    OPENLINK,
    OPENLINK,
    0x1,
];

// The last components of names.
const LETTERS: [u8; 12] = *b"AAABBCaab23?";

// The directory `\3`, and 30, 31 or 32 times the link in it that leads to it.
const DEEPEST: &[u8] = b"333333333333333333333333333333333";

fn any_path(dice: &mut Dice) -> FlatPath {
    let way: &'static [u8] = match dice.below(32) {
        0..=6 => b"",
        7..=8 => b"G",
        9..=12 => b"2",
        13..=14 => b"3",
        15..=20 => b"?",
        21..=22 => b"L",
        23..=24 => b"A",
        25 => b"2A",
        26 => b"?B",
        27 => b"G2",
        28 => b"LA",
        29 => DEEPEST.get(2..).unwrap_or(b""),
        30 => DEEPEST.get(1..).unwrap_or(b""),
        _ => DEEPEST,
    };
    let letter = LETTERS[dice.below(12) as usize];
    let last = match dice.below(10) {
        0 => None,
        _ => Some(letter),
    };
    FlatPath { way, last }
}

// A name, now and then relative to a handle of a process, mostly one to a directory.
fn any_name(dice: &mut Dice, model: &Model, process: u32) -> FlatName {
    let path = any_path(dice);
    let want = match dice.below(24) {
        0..=2 => Some(FlatKind::Directory),
        3 => None,
        _ => return FlatName { root: None, path },
    };
    let root = Some(any_value(dice, model, process, want));
    FlatName { root, path }
}

fn any_flags(dice: &mut Dice, flags: &[u32; 20]) -> u32 {
    let first = flags[dice.below(20) as usize];
    let second = flags[dice.below(19) as usize];
    let third = flags[dice.below(19) as usize];
    first | second | third
}

// A type of plain objects, mostly the one that goes with the last component of a name.
fn any_plain(dice: &mut Dice, last: Option<u8>) -> FlatKind {
    let of = match dice.below(3) {
        0 => FlatKind::Event,
        1 => FlatKind::Mutant,
        _ => FlatKind::Section,
    };
    match (dice.below(4), last) {
        (0, _) => of,
        (_, Some(b'B')) => FlatKind::Mutant,
        (_, Some(b'C' | b'a')) => FlatKind::Section,
        _ => FlatKind::Event,
    }
}

/// A place in the model's list of handles, or directly after them, and the value of the handle there, or 0.
pub(crate) fn any_handle(dice: &mut Dice, model: &Model) -> (usize, u32) {
    let many = model.handles() as u64;
    let place = dice.below(many.saturating_add(1)) as usize;
    (place, model.value_at(place).unwrap_or(0))
}

/// A live process, or now and then none.
pub(crate) fn any_live(dice: &mut Dice, model: &Model) -> Option<u32> {
    let many = model.processes() as u64;
    model.process_at(dice.below(many.saturating_add(1)) as usize)
}

// The value of a handle, mostly one of a process's own to what is wanted. Its low two bits don't count.
fn any_value(dice: &mut Dice, model: &Model, process: u32, want: Option<FlatKind>) -> u32 {
    let (place, any) = any_handle(dice, model);
    let own = model.value_from(place, process, want).unwrap_or(any);
    match dice.below(24) {
        0 => any,
        1 => own | 1,
        2 => own | 3,
        _ => own,
    }
}

/// A process that lives, or now and then any number.
pub(crate) fn any_process(dice: &mut Dice, model: &Model) -> u32 {
    let any = dice.below(14) as u32;
    let live = any_live(dice, model);
    match (dice.below(24), live) {
        (0, _) => any,
        (_, Some(live)) => live,
        (_, None) => model.process_at(0).unwrap_or(1),
    }
}

// The shadow of a directory that is made: every other one has one, mostly a directory to which the process has a handle.
fn any_shadow(dice: &mut Dice, model: &Model, process: u32) -> Option<u32> {
    let want = match dice.below(16) {
        0..=6 => Some(FlatKind::Directory),
        7 => None,
        _ => return None,
    };
    Some(any_value(dice, model, process, want))
}

fn any_make(dice: &mut Dice, model: &Model, process: u32) -> Ask {
    let name = any_name(dice, model, process);
    let (of, target) = match dice.below(8) {
        0..=3 => (any_plain(dice, name.path.last), name.path),
        4..=5 => (FlatKind::Directory, name.path),
        _ => (FlatKind::Link, any_path(dice)),
    };
    let shadow = match of {
        FlatKind::Directory => any_shadow(dice, model, process),
        _ => None,
    };
    Ask::Make {
        of,
        target,
        shadow,
        name: match dice.below(16) {
            0 => None,
            _ => Some(name),
        },
        attrs: any_flags(dice, &MAKE_FLAGS),
    }
}

fn any_open(dice: &mut Dice, model: &Model, process: u32) -> Ask {
    let name = any_name(dice, model, process);
    Ask::Open {
        want: match dice.below(12) {
            0..=3 => None,
            4..=7 => Some(any_plain(dice, name.path.last)),
            8..=9 => Some(FlatKind::Directory),
            _ => Some(FlatKind::Link),
        },
        name,
        attrs: any_flags(dice, &OPEN_FLAGS),
    }
}

// An object is made permanent or temporary: mostly permanent, where every game begins with it.
fn any_turn(dice: &mut Dice, model: &Model, process: u32) -> Ask {
    let value = any_value(dice, model, process, None);
    let is_built = match model.behind(process, value) {
        Some(object) => object.number <= LAST_BUILT,
        None => true,
    };
    let permanent = match dice.below(10) {
        0 => false,
        1..=5 => is_built,
        _ => true,
    };
    Ask::Use {
        value,
        deed: Deed::Turn { permanent },
    }
}

// A query of a handle, and of what type its object mostly is. A page is one of few entries, or now and then one of
// too much room.
fn any_query(dice: &mut Dice) -> (Option<FlatKind>, Deed) {
    let part = FlatPart {
        room: match dice.below(60) as u32 {
            59 => LARGEST_ROOM.wrapping_add(1),
            room => room,
        },
        single: dice.below(3) == 0,
        restart: dice.below(4) == 0,
    };
    match dice.below(16) {
        0..=8 => (Some(FlatKind::Directory), Deed::List(part)),
        9 => (None, Deed::List(part)),
        10..=11 => (Some(FlatKind::Link), Deed::Target),
        12 => (None, Deed::Target),
        _ => (None, Deed::Name),
    }
}

/// The next request of a process.
pub(crate) fn next(dice: &mut Dice, model: &Model, process: u32) -> Ask {
    let inherit = dice.below(4) != 0;
    let many = model.processes();
    let (want, deed) = match dice.below(64) {
        0..=14 => return any_make(dice, model, process),
        15..=30 => return any_open(dice, model, process),
        31..=38 => (None, Deed::Close),
        39..=42 => {
            let to = any_process(dice, model);
            let inherit = dice.below(3) == 0;
            (None, Deed::Duplicate { to, inherit })
        }
        43..=46 => return any_turn(dice, model, process),
        47..=49 => (Some(FlatKind::Directory), Deed::Map),
        50..=62 => any_query(dice),
        _ if many > 11 || (many > 3 && dice.below(2) == 0) => return Ask::Exit,
        _ => return Ask::Begin { inherit },
    };
    let value = any_value(dice, model, process, want);
    Ask::Use { value, deed }
}
