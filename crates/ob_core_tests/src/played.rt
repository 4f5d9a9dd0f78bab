//! Scenes are played, over each set of types and each handle table.

use crate::doors::Doors;
use crate::scenes::{SCENES, Scenes, Set};
use crate::told::{are_calls, counts_of, is_reply};
use either::Either;
use ob_base::{Fault, Proc};
use ob_core::{HandleTable, OpenTable, SlabTable};
use ob_device::DeviceKind;
use ob_plain::{PlainKind, Recorder, Refusing};
use ob_stage::{Listing, Stage, StageEnd, number_of, sides_of, word_of};
use ob_standard::{Standard, StandardKind};
use ob_types::TypeSet;
use std::alloc::Global;

/// Has a process ask for what a line says, so often as its first word does.
fn ask<T: Listing, H: HandleTable>(stage: &mut Stage<T, H>, asker: &str, line: &str) {
    let (process, times) = sides_of(asker, "*");
    let times = match times {
        "" => 1,
        _ => number_of(times),
    };
    stage.make(Proc(number_of(process)), times, line);
}

/// Does with the parse at hand what a word says.
fn parse<T: Listing, H: HandleTable>(stage: &mut Stage<T, H>, other: &mut Stage<T, H>, word: &str) {
    match word {
        "run" => stage.run(),
        "resume" => stage.resume(),
        "drop" => stage.give_up(),
        _ => stage.swap(other),
    }
}

/// Makes the step of a line, where it has one.
fn make<T: Listing, H: HandleTable>(stage: &mut Stage<T, H>, other: &mut Stage<T, H>, line: &str) {
    match word_of(line, 0) {
        "all" => {}
        "parse" => parse(stage, other, word_of(line, 1)),
        asker => ask(stage, asker, line),
    }
}

/// Whether the last step was answered as a line says.
fn is_told<T: Listing, H: HandleTable>(stage: &Stage<T, H>, told: &str) -> bool {
    match (stage.end(), word_of(told, 0)) {
        (StageEnd::Done(reply), _) => is_reply(reply, told),
        (StageEnd::Waits, "waits") => stage.is_waited_for(word_of(told, 1), word_of(told, 2)),
        (StageEnd::Back(is_stranger), "stranger") => *is_stranger,
        (StageEnd::GivenUp(did_wait), "given") => *did_wait,
        (StageEnd::GivenUp(did_wait), "kept") => !*did_wait,
        _ => false,
    }
}

/// Whether there are so many objects and handles as a line says.
fn is_counted<T: Listing, H: HandleTable>(stage: &Stage<T, H>, told: &str) -> bool {
    let (objects, handles) = stage.counts();
    objects == number_of(word_of(told, 0)) as usize
        && handles == number_of(word_of(told, 1)) as usize
}

/// Whether the set opened, closed and deleted as often as a line says after objects and handles.
fn is_called<T: Listing, H: HandleTable>(stage: &Stage<T, H>, told: &str) -> bool {
    let (calls, lost) = stage.calls();
    let (opens, closes, deletes) = counts_of(calls);
    opens == number_of(word_of(told, 2))
        && closes == number_of(word_of(told, 3))
        && deletes == number_of(word_of(told, 4))
        && lost == 0
}

/// Whether what a line looks at of a process is as it says.
fn is_so_of<T: Listing, H: HandleTable>(stage: &Stage<T, H>, line: &str, told: &str) -> bool {
    let (process, word) = (Proc(number_of(word_of(line, 0))), word_of(line, 2));
    let said = word_of(told, 0);
    match word_of(line, 1) {
        "has" => stage.handles_of(process) == number_of(said) as usize,
        "holds" => stage.holds(process, word) == (said == "true"),
        _ => stage.led_to(process, word) == (said, u64::from(number_of(word_of(told, 1)))),
    }
}

/// Whether the calls of the set that a line looks at are as it says.
fn is_recorded<T: Listing, H: HandleTable>(stage: &Stage<T, H>, line: &str, told: &str) -> bool {
    let (calls, lost) = stage.calls();
    match word_of(line, 1) {
        "calls" => {
            let part = (number_of(word_of(line, 2)), number_of(word_of(line, 3)));
            are_calls(calls, part, told)
        }
        _ => {
            calls.len() == number_of(word_of(told, 0)) as usize
                && lost == u64::from(number_of(word_of(told, 1)))
        }
    }
}

/// The last byte of a name that a word says; 0 for a dot, which is none.
fn letter_of(word: &str) -> u8 {
    match word.as_bytes().first() {
        Some(b'.') | None => 0,
        Some(letter) => *letter,
    }
}

/// Whether the names, the removed ones, or the first object from an id on, are as a line says.
fn is_named<T: Listing, H: HandleTable>(stage: &Stage<T, H>, line: &str, told: &str) -> bool {
    let (count, removed) = stage.names();
    let (first, place) = (number_of(word_of(told, 0)), number_of(word_of(line, 2)));
    let second = word_of(told, 1);
    match word_of(line, 1) {
        "names" => count == first as usize && removed.len() == number_of(second) as usize,
        "removed" => removed.get(place as usize).is_some_and(|it| {
            it.object.0 == u64::from(first) && it.stamp == u64::from(number_of(second))
        }),
        _ => {
            let letter = letter_of(second);
            let stamp = u64::from(number_of(word_of(told, 2)));
            let directory = u64::from(number_of(word_of(told, 3)));
            stage.first_from(place) == (u64::from(first), letter, stamp, directory)
        }
    }
}

/// Whether the step of a line, or what a line looks at, is as it says.
fn is_so<T: Listing, H: HandleTable>(stage: &Stage<T, H>, line: &str, told: &str) -> bool {
    match word_of(line, 1) {
        "has" | "holds" | "leads" => is_so_of(stage, line, told),
        "counts" => is_counted(stage, told),
        "left" => is_counted(stage, told) && is_called(stage, told),
        "waits" => stage.left(word_of(line, 2)) == number_of(word_of(told, 0)),
        "calls" | "recorded" => is_recorded(stage, line, told),
        "names" | "removed" | "from" => is_named(stage, line, told),
        "swap" => true,
        _ => is_told(stage, told),
    }
}

/// Whether a line of a namespace is as it says, beside another namespace.
fn is_played<T: Listing, H: HandleTable>(
    stage: &mut Stage<T, H>,
    other: &mut Stage<T, H>,
    line: &str,
) -> bool {
    let (asked, told) = sides_of(line, "|");
    make(stage, other, asked);
    stage.note();
    is_so(stage, asked, told)
}

/// The first line of a scene that isn't as it says; empty where each is.
fn first_other<'a, T: Listing, H: HandleTable>(
    stage: &mut Stage<T, H>,
    other: &mut Stage<T, H>,
    scene: &'a str,
) -> &'a str {
    for line in scene.lines() {
        let is_played = match word_of(line, 0) {
            "#" => true,
            "there" => is_played(other, stage, sides_of(line, "there ").1),
            _ => is_played(stage, other, line),
        };
        if !is_played {
            return line;
        }
    }
    ""
}

/// A new namespace for some scenes.
fn stage_of<T: TypeSet, H: HandleTable>(
    alloc: Global,
    scenes: &Scenes,
    set: T,
    kinds: (T::Kind, T::Kind),
) -> Result<Stage<Refusing<Recorder<T>>, H>, Fault> {
    let recorder = Recorder::new(alloc, set, scenes.room as usize)?;
    Stage::new(
        alloc,
        Refusing::new(recorder, u64::from(scenes.accepts)),
        kinds,
    )
}

/// The first line of a scene that isn't as it says, in a namespace beside another one, both of which are dropped; all of it, where
/// one found no memory.
fn other_beside<'a, T: Listing, H: HandleTable>(
    stage: Result<Stage<T, H>, Fault>,
    other: Result<Stage<T, H>, Fault>,
    scene: &'a str,
) -> &'a str {
    match (stage, other) {
        (Ok(stage), Ok(other)) => {
            let (mut stage, mut other) = (stage, other);
            let line = first_other(&mut stage, &mut other, scene);
            stage.close();
            other.close();
            return line;
        }
        (Ok(stage), Err(_)) | (Err(_), Ok(stage)) => stage.close(),
        (Err(_), Err(_)) => {}
    }
    scene
}

/// The same in new namespaces over two sets.
fn other_over<'a, T: TypeSet, H: HandleTable>(
    alloc: Global,
    scenes: &Scenes,
    sets: (T, T),
    kinds: (T::Kind, T::Kind),
    scene: &'a str,
) -> &'a str {
    let (set, other_set) = sets;
    let stage = stage_of::<T, H>(alloc, scenes, set, kinds);
    let other = stage_of::<T, H>(alloc, scenes, other_set, kinds);
    other_beside(stage, other, scene)
}

/// The same over the standard set, where the first and the other kind of lines are these.
fn other_over_standard<'a, H: HandleTable>(
    alloc: Global,
    scenes: &Scenes,
    kinds: (StandardKind, StandardKind),
    scene: &'a str,
) -> &'a str {
    let sets = (Standard::new(), Standard::new());
    other_over::<Standard, H>(alloc, scenes, sets, kinds, scene)
}

/// The same over the set that the scenes name.
fn other_in<'a, H: HandleTable>(alloc: Global, scenes: &Scenes, scene: &'a str) -> &'a str {
    let kinds = match scenes.set {
        Set::Doors => {
            return other_over::<Doors, H>(alloc, scenes, (Doors, Doors), (true, false), scene);
        }
        Set::Plain => (
            Either::Left(PlainKind::Event),
            Either::Left(PlainKind::Mutant),
        ),
        Set::Devices => (
            Either::Right(Either::Left(DeviceKind::Device)),
            Either::Right(Either::Left(DeviceKind::File)),
        ),
    };
    other_over_standard::<H>(alloc, scenes, kinds, scene)
}

/// The first line of all scenes that isn't as it says.
fn first_other_of<H: HandleTable>(alloc: Global) -> &'static str {
    for scenes in SCENES {
        for scene in scenes.text.split("\n\n") {
            let line = other_in::<H>(alloc, scenes, scene);
            if !line.is_empty() {
                return line;
            }
        }
    }
    ""
}

#[test]
fn scenes_are_played_as_they_say(rt: HostRuntime) {
    let over_maps = first_other_of::<OpenTable>(rt.alloc());
    let over_a_slab = first_other_of::<SlabTable>(rt.alloc());
    assert_eq!(rt;
        (over_maps, over_a_slab),
        ("", ""),
        "over an OpenTable, and over a SlabTable"
    );
}
