//! Callers share a namespace, by threads of their own and under its lock.
//!
//! `callers` plays scenes of several callers, and then steps as `callers refused` does. The journal of each namespace follows, which
//! `ntns replay` accepts.
//!
//! `callers refused` makes steps under the lock of four seats, each in a namespace of its own, a line each with the journal after it, and `callers refused N` the
//! Nth alone. A library that refuses its requests for memory in turn is to be preloaded. Where a step is refused memory, namespace, journal and pass have to be
//! as before; then the step is made again. The last line, and the status, say whether each was so. The requests of a
//! step are those between the first write of its line and the second.
//!
//! `callers mix` writes the journal of four callers who make 20,000 steps at once, and nothing else. `callers write` writes that of four, of whom one seals it
//! 200 times, and writes each segment that it has sealed while the others go on.
//!
//! `callers own CALLERS ROUNDS` and `callers one CALLERS ROUNDS` make rounds, to be timed: in each a caller makes a directory, opens it and closes both
//! handles; the directory has the caller's own name, or one name for all.
#![tactic(auto)]

mod asked;
mod caller;
mod rows;
mod scenes;
mod threads;
mod under;
mod written;

use crate::scenes::{Scene, are_made, are_told, of_many};
use crate::threads::{Deed, Rounds};
use crate::under::are_tried;
use std::alloc::Global;
use std::io::Write;
use std::process::ExitCode;
use std::sync::Wait;
use std::thread::Threads;
use std::time::Clock;
use std::{env, io};

/// The task of the program.
#[derive(Clone, Copy)]
enum Task {
    /// Reports what callers do together, and what comes of steps.
    Tell,
    /// Steps are made, or the one at this place.
    Refused(Option<usize>),
    /// Callers make rounds.
    Rounds(Scene),
}

/// A number that is written out.
fn number_of(word: Option<&String>) -> Option<u32> {
    word?.as_str().parse::<u32>().ok()
}

/// The task that the arguments ask for.
fn task_of(words: &[String]) -> Option<Task> {
    let Some(what) = words.get(1) else {
        return Some(Task::Tell);
    };
    let first = number_of(words.get(2));
    let is_own = what.as_str() == "own";
    match what.as_str() {
        "refused" => Some(Task::Refused(first.map(|place| place as usize))),
        "mix" => {
            let rounds = Rounds {
                on_its_own: true,
                on_one: true,
                count: 625,
            };
            Some(Task::Rounds(of_many(4, Deed::Rounds(rounds), true)))
        }
        "write" => {
            let rounds = Rounds {
                on_its_own: true,
                on_one: false,
                count: 200,
            };
            Some(Task::Rounds(of_many(4, Deed::Write(rounds, 4), true)))
        }
        "own" | "one" => {
            let rounds = Rounds {
                on_its_own: is_own,
                on_one: !is_own,
                count: number_of(words.get(3)).unwrap_or(0),
            };
            Some(Task::Rounds(of_many(first?, Deed::Rounds(rounds), false)))
        }
        _ => None,
    }
}

/// Does as the arguments say; whether every outcome is as expected.
fn is_done<R: Threads + Wait + Clock + Sync, W: Write>(
    rt: &R,
    writer: &mut W,
    alloc: Global,
    task: Task,
) -> bool {
    match task {
        Task::Tell => {
            let are_told = are_told(rt, writer, alloc);
            are_tried(writer, alloc, None) && are_told
        }
        Task::Refused(place) => are_tried(writer, alloc, place),
        Task::Rounds(scene) => are_made(rt, writer, alloc, &scene),
    }
}

/// Does as the arguments say; the status is 1 if an outcome isn't as expected.
fn main(rt: HostRuntime) -> io::Result<ExitCode> {
    let alloc = rt.alloc();
    let Ok(words) = env::args(&rt)?.collect::<Vec<String>>(alloc) else {
        return Ok(ExitCode::from(1));
    };
    let Some(task) = task_of(words.as_slice()) else {
        println!(rt;
            "callers [refused [STEP] | mix | write | own CALLERS ROUNDS | one CALLERS ROUNDS]"
        )?;
        return Ok(ExitCode::from(1));
    };
    match is_done(&rt, &mut rt.stdout(), alloc, task) {
        true => Ok(ExitCode::from(0)),
        false => Ok(ExitCode::from(1)),
    }
}
