//! Random opens of ten processes that wait for the parses of a device, ended and given up in any order, beside a
//! plain model over flat lists.

use crate::dice::Dice;
use crate::draw::{any_handle, any_live};
use crate::game::{Game, agreed_by_tables};
use crate::turn::Turn;
use ob_flat_model::{
    Ask, Deed, EXCLUSIVE, FlatKind, FlatName, FlatPath, INHERIT, Model, PERMANENT,
};
use std::test::Fail;

// The flags of opens, one of which is unlawful.
const FLAGS: [u32; 8] = [0, 0, 0, INHERIT, INHERIT, INHERIT, EXCLUSIVE, 0x22];

// The names that an open may have: the device itself, which leads to a file without a path; a file that it has; one
// that it hasn't; and nothing that there is, so that the open doesn't wait.
const NAMES: [(&[u8], u8); 6] = [
    (b"D", b's'),
    (b"Ds", b'p'),
    (b"Ds", b'p'),
    (b"Ds", b'p'),
    (b"Ds", b'q'),
    (b"D", b't'),
];

fn named((way, letter): (&'static [u8], u8)) -> FlatName {
    let (root, last) = (None, Some(letter));
    let path = FlatPath { way, last };
    FlatName { root, path }
}

// An open, now and then of a device, which no file is.
fn any_open(dice: &mut Dice) -> Ask {
    let name = named(NAMES[dice.below(6) as usize]);
    let attrs = FLAGS[dice.below(8) as usize];
    let want = match dice.below(8) {
        0 => Some(FlatKind::Device),
        _ => None,
    };
    Ask::Open { want, name, attrs }
}

/// The next turn, where so many turns are done. A game begins with a permanent device of one file. Then an open that
/// waits ends or is given up, or a process, mostly one that lives, asks for something, mostly of a handle that there
/// is.
pub(crate) fn turn(dice: &mut Dice, model: &Model, done: u32) -> Turn {
    if done == 0 {
        let (of, name, attrs) = (FlatKind::Device, named(NAMES[0]), PERMANENT);
        let (target, shadow, name) = (name.path, None, Some(name));
        return Turn::Start(
            1,
            Ask::Make {
                of,
                target,
                shadow,
                name,
                attrs,
            },
        );
    }
    let live = any_live(dice, model);
    let process = live.unwrap_or(dice.below(12) as u32);
    let (_, value) = any_handle(dice, model);
    let open = any_open(dice);
    let place = dice.below((model.waiting() as u64).saturating_add(1)) as usize;
    let (inherit, many) = (dice.below(2) == 0, model.processes());
    let deed = Deed::Close;
    let ask = match dice.below(20) {
        0..=5 if place < model.waiting() => return Turn::End(place),
        6..=7 if place < model.waiting() => return Turn::Drop(place),
        8..=10 => Ask::Use { value, deed },
        11 if many > 1 => Ask::Exit,
        11..=12 if many < 10 => Ask::Begin { inherit },
        _ => open,
    };
    Turn::Start(process, ask)
}

#[test]
fn random_opens_that_wait_end_as_a_plain_model_says(rt: HostRuntime) -> Result<(), Fail> {
    for state in 1..3 {
        let agreed = agreed_by_tables(rt.alloc(), Game::Opens, state, 3_001)?;
        assert_eq!(rt; agreed, (3_001, 3_001), "from {state:?}");
    }
    Ok(())
}
