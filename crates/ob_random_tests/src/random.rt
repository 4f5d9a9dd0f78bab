//! Random commands of a dozen processes, some of which have device maps, beside a plain model of the namespace.

use crate::dice::Dice;
use crate::draw::{any_process, next};
use crate::game::{Game, agreed_by_tables};
use crate::turn::Turn;
use ob_flat_model::{Ask, FlatKind, FlatName, FlatPath, INHERIT, Model, PERMANENT};
use std::env;
use std::test::Fail;

// How many commands are played from one state of the dice, after the first three.
const GAME: u32 = 2_500;

/// The next turn, where so many turns are done. A game begins with what the first process makes: the directories `\2`
/// and `\3`, and the link `\3\3` to the directory in which it is.
pub(crate) fn turn(dice: &mut Dice, model: &Model, done: u32) -> Turn {
    let (of, way, letter): (FlatKind, &'static [u8], u8) = match done {
        0 => (FlatKind::Directory, b"", b'2'),
        1 => (FlatKind::Directory, b"", b'3'),
        2 => (FlatKind::Link, b"3", b'3'),
        _ => {
            let process = any_process(dice, model);
            return Turn::Start(process, next(dice, model, process));
        }
    };
    let (root, last) = (None, Some(letter));
    let path = FlatPath { way, last };
    let make = Ask::Make {
        of,
        target: FlatPath { way, last: None },
        shadow: None,
        name: Some(FlatName { root, path }),
        attrs: PERMANENT | INHERIT,
    };
    Turn::Start(1, make)
}

// How many games are played: five, or as many as have the commands that the environment asks for.
fn games(rt: &HostRuntime) -> Result<u64, Fail> {
    let Ok(commands) = env::var(rt, "COMMANDS") else {
        return Ok(5);
    };
    let commands = commands.as_str().parse::<u64>()?;
    Ok(commands.div_ceil(u64::from(GAME)))
}

#[test]
fn random_commands_get_what_a_plain_model_says(rt: HostRuntime) -> Result<(), Fail> {
    for state in 0..games(&rt)? {
        let agreed = agreed_by_tables(rt.alloc(), Game::Commands, state, GAME + 3)?;
        assert_eq!(rt; agreed, (GAME + 3, GAME + 3), "from {state:?}");
    }
    Ok(())
}
