//! Viewers look names up in a namespace that a writer publishes, and take no lock.
//!
//! `viewers` has two viewers take turns with the writer, then compares what they see with the names at random publishes, and
//! then has them look names up on threads of their own while the writer publishes every 100 steps. It prints a line for each.
//!
//! `viewers refused` publishes after each of some steps; a library that refuses one of its requests for memory is to be preloaded. It prints whether viewers then
//! see what they saw, and the next publish shows all.
//!
//! `viewers look VIEWERS LOOKUPS` has so many viewers make so many lookups each beside a writer, and `viewers open LOOKUPS` makes them
//! by opens under the lock, to be timed.
//!
//! `viewers find ROWS LOOKUPS` has a viewer look so many times for names that are among so many in one directory, and `viewers resolve ROWS LOOKUPS`
//! resolve their whole paths, which are four components long. It prints how many were found. Their instructions are to be counted.
#![tactic(auto)]

mod beside;
mod many;
mod participants;
mod random;
mod refused;
mod scenes;
mod turns;
mod writer;

use crate::participants::outcome_of;
use crate::scenes::{Scene, SceneOutcome};
use ob_published::Opened;
use std::alloc::Global;
use std::io::Write;
use std::marker::Brand;
use std::process::ExitCode;
use std::sync::Wait;
use std::sync::ledger::Blank;
use std::thread::Threads;
use std::{env, io};

/// The seats that the ledger of a namespace has parts for.
const PARTS: u64 = 1024;

/// The task of the program.
#[derive(Clone, Copy)]
enum Task {
    /// Compares what viewers see in three scenes.
    Compare,
    /// A publish that runs out of memory is made again.
    Refused,
    /// Plays a scene that is measured.
    Measure(Scene),
}

/// A number that is written out.
fn number_of(argument: Option<&String>) -> Option<u32> {
    argument?.as_str().parse::<u32>().ok()
}

/// The task that the arguments ask for.
fn task_of(arguments: &[String]) -> Option<Task> {
    let Some(what) = arguments.get(1) else {
        return Some(Task::Compare);
    };
    if what.as_str() == "refused" {
        return Some(Task::Refused);
    }
    let first = number_of(arguments.get(2))?;
    let second = number_of(arguments.get(3));
    Some(Task::Measure(measured(what.as_str(), first, second)?))
}

/// The scene of a name that is measured, with its numbers.
fn measured(name: &str, first: u32, second: Option<u32>) -> Option<Scene> {
    match name {
        "look" => Some(Scene::Look {
            viewers: first,
            lookups: second?,
        }),
        "open" => Some(Scene::Open { lookups: first }),
        "find" => Some(Scene::Find {
            rows: first,
            lookups: second?,
        }),
        "resolve" => Some(Scene::Resolve {
            rows: first,
            lookups: second?,
        }),
        _ => None,
    }
}

/// Plays a scene in a namespace of its own; its outcome, if memory sufficed.
fn played<R: Threads + Wait + Sync>(rt: &R, alloc: Global, scene: Scene) -> Option<SceneOutcome> {
    let (blank, opened) = (Blank::new(PARTS), Opened::new());
    outcome_of::<R, &R, Brand, Brand>(rt, rt, alloc, blank, opened, scene)
}

/// Plays a scene, and writes a line that says whether all was as it should be; whether it was.
fn is_told<R: Threads + Wait + Sync, W: Write>(
    rt: &R,
    writer: &mut W,
    alloc: Global,
    scene: Scene,
    what: &[u8],
) -> bool {
    let is_right = matches!(played(rt, alloc, scene), Some(SceneOutcome::Seen(true)));
    let end: &[u8] = if is_right { b": yes\n" } else { b": NO\n" };
    writer.write_all(what).is_ok() && writer.write_all(end).is_ok() && is_right
}

/// Plays a scene that is measured, and writes how many names were found, if it looks for some; whether all was as it should be.
fn is_measured<R: Threads + Wait + Sync, W: Write>(
    rt: &R,
    writer: &mut W,
    alloc: Global,
    scene: Scene,
) -> bool {
    match played(rt, alloc, scene) {
        Some(SceneOutcome::Seen(right)) => right,
        Some(SceneOutcome::Found(found)) => writeln!(writer, "found {found}").is_ok(),
        None => false,
    }
}

/// Does the task; whether every outcome is as expected.
fn is_done<R: Threads + Wait + Sync, W: Write>(
    rt: &R,
    writer: &mut W,
    alloc: Global,
    task: Task,
) -> bool {
    match task {
        Task::Compare => {
            let turned = is_told(
                rt,
                writer,
                alloc,
                Scene::Turns,
                b"two viewers see what is published",
            );
            let compared = is_told(
                rt,
                writer,
                alloc,
                Scene::Random,
                b"at random publishes they see the names of then",
            );
            let seen = is_told(
                rt,
                writer,
                alloc,
                Scene::Beside,
                b"beside a writer they never go back",
            );
            turned && compared && seen
        }
        Task::Refused => is_told(
            rt,
            writer,
            alloc,
            Scene::Refused,
            b"after a refused publish the next shows all",
        ),
        Task::Measure(scene) => is_measured(rt, writer, alloc, scene),
    }
}

/// Does the task that the arguments ask for; the status is 1 if an outcome isn't as expected.
fn main(rt: HostRuntime) -> io::Result<ExitCode> {
    let alloc = rt.alloc();
    let Ok(arguments) = env::args(&rt)?.collect::<Vec<String>>(alloc) else {
        return Ok(ExitCode::from(1));
    };
    let Some(task) = task_of(arguments.as_slice()) else {
        println!(rt;
            "viewers [refused | look VIEWERS LOOKUPS | open LOOKUPS | find ROWS LOOKUPS | resolve ROWS LOOKUPS]"
        )?;
        return Ok(ExitCode::from(1));
    };
    match is_done(&rt, &mut rt.stdout(), alloc, task) {
        true => Ok(ExitCode::from(0)),
        false => Ok(ExitCode::from(1)),
    }
}
