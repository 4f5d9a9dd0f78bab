//! Two workers that meet, and seat 0 after them.

ghost use Rattle.std.specs.Prelude.{◌≡◌, []};
ghost use Rattle.ob_base.specs.declared.fault.Fault.TheVariants.{Memory};

use ob_base::{Fault, Proc};
use ob_model::Command;
use ob_seats::{CallOutcome, Callers, Stop, Stopped};
use ob_standard::StandardKind;
use ob_threads::run_seats;
use ob_worker_lines::cut;
use std::alloc::Global;
use std::sync::Wait;
use std::sync::atomic::AtomicBool;
use std::sync::atomic::Ordering::SeqCst;
use std::test::Fail;
use std::thread;
use std::thread::Threads;
use std::time::{Clock, Duration};

/// How far a start of a worker has come.
#[derive(Drop)]
struct Progress {
    is_begun: AtomicBool,
    is_ended: AtomicBool,
}

impl Progress {
    fn new() -> Progress {
        Progress {
            is_begun: AtomicBool::new(false),
            is_ended: AtomicBool::new(false),
        }
    }
}

/// A namespace that finds no memory. A start of seat 1 ends only once one of seat 2 has begun, and the reverse.
#[derive(Drop)]
struct Meeting<'a, R> {
    rt: &'a R,
    first: Progress,
    second: Progress,
    /// One of them didn't see the other.
    missed: AtomicBool,
    /// A start of seat 0 didn't see the end of both.
    early: AtomicBool,
}

impl<R: Clock> Meeting<'_, R> {
    /// A start of a worker, beside one of the other.
    fn meet(&self, own: &Progress, other: &Progress) {
        own.is_begun.store(true, SeqCst);
        if !is_given(self.rt, &other.is_begun) {
            self.missed.store(true, SeqCst);
        }
        thread::sleep(self.rt, Duration::from_millis(20));
        own.is_ended.store(true, SeqCst);
    }

    /// A start of seat 0.
    fn follow(&self) {
        if !self.first.is_ended.load(SeqCst) || !self.second.is_ended.load(SeqCst) {
            self.early.store(true, SeqCst);
        }
    }
}

impl<R: Clock> Callers for Meeting<'_, R> {
    type Pass = u32;

    type Parsing = u64;

    ghost seat_of = { λ pass. pass };

    ghost receipts = { λ pass. [] };

    ghost ticket_of = { λ parsing. parsing };

    ghost gives_fault = { λ pass fault. fault ≡ Memory };

    fn ticket(parsing: &u64) -> u64 {
        *parsing
    }

    fn count(_pass: &u32) -> usize {
        0
    }

    fn start(
        &self,
        pass: u32,
        _process: Proc,
        _command: &Command<StandardKind>,
    ) -> (u32, Result<CallOutcome<u64>, Fault>) {
        match pass {
            0 => self.follow(),
            1 => self.meet(&self.first, &self.second),
            _ => self.meet(&self.second, &self.first),
        }
        (pass, Err(Fault::Memory))
    }

    fn resume(&self, pass: u32, _parsing: u64) -> (u32, Result<CallOutcome<u64>, Fault>) {
        (pass, Err(Fault::Memory))
    }

    fn abandon(&self, pass: u32, _parsing: u64) -> (u32, bool) {
        (pass, false)
    }

    fn seal(&self, pass: u32) -> (u32, bool) {
        (pass, false)
    }
}

/// Waits for a signal, at most 10,000 times a millisecond; whether it was given.
fn is_given<R: Clock>(rt: &R, signal: &AtomicBool) -> bool {
    for _ in 0..10_000 {
        if signal.load(SeqCst) {
            return true;
        }
        thread::sleep(rt, Duration::from_millis(1));
    }
    false
}

/// The outcome of a meeting.
#[derive(Drop)]
struct Met {
    /// The workers met, and all seats ended for lack of memory, the first of them in line 2.
    at_once: bool,
    /// Seat 0 went on when both had ended.
    in_order: bool,
}

/// Runs a script of two workers that meet, and of seat 0 after them.
fn meet_and_join<R: Threads + Wait + Clock + Sync>(rt: &R, alloc: Global) -> Result<Met, Fail> {
    let meeting = Meeting {
        rt,
        first: Progress::new(),
        second: Progress::new(),
        missed: AtomicBool::new(false),
        early: AtomicBool::new(false),
    };
    let Ok(parts) = cut(alloc, b"thread\np1 exit\nthread\np1 exit\njoin\np1 exit\n") else {
        return Err(Fail::new("it was told otherwise"));
    };
    if parts.workers.len() != 2 {
        return Err(Fail::new("it was told otherwise"));
    }
    let mut theirs = Vec::new(alloc);
    theirs.push(1)?;
    theirs.push(2)?;
    let Ok(ran) = run_seats(rt, alloc, &meeting, &parts, 0, theirs) else {
        return Err(Fail::new("it was told otherwise"));
    };
    let (line, why) = (2, Stop::Memory);
    let is_told = ran.ended == Err(Stopped { line, why });
    let all_are_back = ran.own == 0 && ran.theirs.len() == 2;
    Ok(Met {
        at_once: is_told && all_are_back && !meeting.missed.load(SeqCst),
        in_order: !meeting.early.load(SeqCst),
    })
}

#[test]
fn two_workers_run_at_the_same_time(rt: HostRuntime) -> Result<(), Fail> {
    if meet_and_join(&rt, rt.alloc())?.at_once {
        Ok(())
    } else {
        Err(Fail::new("it was told otherwise"))
    }
}

#[test]
fn seat_0_goes_on_when_all_workers_have_ended(rt: HostRuntime) -> Result<(), Fail> {
    if meet_and_join(&rt, rt.alloc())?.in_order {
        Ok(())
    } else {
        Err(Fail::new("it went on before"))
    }
}
