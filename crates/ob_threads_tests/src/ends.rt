//! Which end is reported of several.

ghost use Rattle.std.specs.Prelude.{[]};

use ob_base::{Fault, Proc, Status};
use ob_model::Command;
use ob_seats::{CallOutcome, Callers, Stop, Stopped};
use ob_standard::StandardKind;
use ob_threads::run_seats;
use ob_worker_lines::cut;
use std::alloc::Global;
use std::sync::Wait;
use std::test::Fail;
use std::thread::Threads;

/// A namespace in which each step is refused, or finds no memory, seat by seat: seats 0, 1 and 2.
#[derive(Drop)]
struct Refusing {
    ends: [Stop; 3],
}

impl Callers for Refusing {
    type Pass = usize;

    type Parsing = u64;

    ghost seat_of = { λ pass. pass };

    ghost receipts = { λ pass. [] };

    ghost ticket_of = { λ parsing. parsing };

    ghost gives_fault = { λ pass fault. Unit {0} };

    fn ticket(parsing: &u64) -> u64 {
        *parsing
    }

    fn count(_pass: &usize) -> usize {
        0
    }

    fn start(
        &self,
        pass: usize,
        _process: Proc,
        _command: &Command<StandardKind>,
    ) -> (usize, Result<CallOutcome<u64>, Fault>) {
        let end = if pass < 3 {
            self.ends[pass]
        } else {
            Stop::Memory
        };
        match end {
            Stop::Memory => (pass, Err(Fault::Memory)),
            Stop::Refused => (pass, Err(Fault::Refused(Status::JournalFull))),
        }
    }

    fn resume(&self, pass: usize, _parsing: u64) -> (usize, Result<CallOutcome<u64>, Fault>) {
        (pass, Err(Fault::Memory))
    }

    fn abandon(&self, pass: usize, _parsing: u64) -> (usize, bool) {
        (pass, false)
    }

    fn seal(&self, pass: usize) -> (usize, bool) {
        (pass, false)
    }
}

/// A script whose seats end so, and the report: seats 0, 1 and 2, the line and why.
type EndCase = (&'static [u8], [Stop; 3], u64, Stop);

const M: Stop = Stop::Memory;

const R: Stop = Stop::Refused;

/// Two workers, and lines of seat 0 after them.
const BOTH: &[u8] = b"# none\nthread\np1 exit\np1 exit\nthread\nstat\np1 exit\njoin\np1 exit\n";

/// The same, and a line of seat 0 before them.
const BEFORE: &[u8] = b"p1 exit\nthread\np1 exit\nthread\np1 exit\n";

const ENDS: [EndCase; 7] = [
    (BOTH, [M, M, M], 3, M),
    (BOTH, [R, R, R], 3, R),
    (BOTH, [R, R, M], 7, M),
    (BOTH, [M, R, R], 9, M),
    (BOTH, [R, M, R], 3, M),
    (BOTH, [M, R, M], 7, M),
    (BEFORE, [R, M, M], 1, R),
];

/// The end that is reported of a script whose seats end so.
fn told<H: Threads + Wait + Sync>(
    rt: &H,
    alloc: Global,
    script: &[u8],
    ends: [Stop; 3],
) -> Result<Result<(), Stopped>, Fail> {
    let Ok(parts) = cut(alloc, script) else {
        return Err(Fail::new("it was told otherwise"));
    };
    if parts.workers.len() != 2 {
        return Err(Fail::new("it was told otherwise"));
    }
    let mut theirs = Vec::new(alloc);
    theirs.push(1)?;
    theirs.push(2)?;
    let refusing = Refusing { ends };
    match run_seats(rt, alloc, &refusing, &parts, 0, theirs) {
        Ok(ran) => Ok(ran.ended),
        Err(_) => Err(Fail::new("it was told otherwise")),
    }
}

#[test]
fn want_of_memory_is_told_before_a_refusal_and_the_least_line_before_others(
    rt: HostRuntime,
) -> Result<(), Fail> {
    for (script, ends, line, why) in ENDS {
        let told = told(&rt, rt.alloc(), script, ends)?;
        if told != Err(Stopped { line, why }) {
            return Err(Fail::new("it was told otherwise"));
        }
    }
    Ok(())
}
