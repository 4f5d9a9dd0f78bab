//! The workers of a script, each in a thread of its own.

ghost use Rattle.std.specs.Prelude.{◌≡◌, [], All, IfOk, OnOk, Ok, map};
ghost use Rattle.std.specs.List.{AllZip};
ghost use Rattle.ob_requests.specs.Tables.{variables_in};
ghost use Rattle.ob_seats.specs.Kept.{AreHeld};
ghost use Rattle.ob_threads.specs.Ended.{told_in};
ghost use Rattle.ob_threads.specs.Run.{IsGiven};
ghost use Rattle.ob_threads.specs.Worked.{CanRun, IsWorked};

use crate::ends::told_of;
use ob_requests::Variables;
use ob_seats::{Callers, Seat, Stopped, run_seat};
use ob_worker_lines::Part;
use std::alloc::{AllocError, Global};
use std::sync::Wait;
use std::thread;
use std::thread::Threads;

/// The job of a worker: its pass, the variables that it begins with, and its lines.
#[derive(Drop)]
pub(crate) struct Job<'a, C: Callers> {
    pub(crate) pass: C::Pass,
    pub(crate) variables: Variables,
    pub(crate) part: Part<'a>,
}

/// The results of a worker: its pass, and how its lines ended.
#[derive(Drop)]
pub(crate) struct Worked<C: Callers> {
    pub(crate) pass: C::Pass,
    pub(crate) ended: Result<(), Stopped>,
}

/// Runs all workers, each in a thread of its own where one can be made, to their ends. Out of memory, their passes are lost.
pub(crate) fn run_workers<H: Threads + Wait + Sync, C: Callers + Sync>(
    rt: &H,
    callers: &C,
    jobs: Vec<Job<'_, C>>,
) -> Result<Vec<Worked<C>>, AllocError>
    requires parts { All (λ job. CanRun job.part) jobs.items }
    requires variables { All (λ job. AreHeld (variables_in job.variables).tickets []) jobs.items }
    ensures { IfOk result (λ worked.
        AllZip (λ job done.
        IsWorked (IsGiven C.gives_fault) job.part (variables_in job.variables) (C.seat_of job.pass)
        (C.seat_of done.pass) (C.receipts job.pass) (C.receipts done.pass) done.ended)
        jobs.entry.items worked.items) }
{
    thread::map_vec(
        rt,
        jobs,
        &|job: Job<'_, C>| -> Worked<C>
            requires { CanRun job.part × AreHeld (variables_in job.variables).tickets [] }
            ensures { IsWorked (IsGiven C.gives_fault) job.entry.part (variables_in job.entry.variables)
                (C.seat_of job.entry.pass) (C.seat_of result.pass) (C.receipts job.entry.pass)
                (C.receipts result.pass) result.ended }
        { work(rt, callers, job) },
    )
}

/// Runs a worker's lines to their end.
fn work<H: Wait, C: Callers>(rt: &H, callers: &C, job: Job<'_, C>) -> Worked<C>
    requires part { CanRun job.part }
    requires variables { AreHeld (variables_in job.variables).tickets [] }
    ensures { IsWorked (IsGiven C.gives_fault) job.entry.part (variables_in job.entry.variables)
        (C.seat_of job.entry.pass) (C.seat_of result.pass) (C.receipts job.entry.pass)
        (C.receipts result.pass) result.ended }
{
    let Job {
        pass,
        variables,
        part,
    } = job;
    let (pass, ended) = run_seat(rt, callers, Seat::with_variables(variables), pass, part);
    Worked { pass, ended }
}

/// The passes of workers that were run, and the end that is reported of them.
pub(crate) fn gather<C: Callers>(
    alloc: Global,
    worked: Vec<Worked<C>>,
) -> Result<(Vec<C::Pass>, Result<(), Stopped>), AllocError>
    ensures passes { IfOk result (λ gathered. gathered.0.items
        ≡ map (λ done. done.pass) worked.items) }
    ensures ended { IfOk result (λ gathered.
        OnOk (gathered.1) (All (λ done. done.ended ≡ Ok tt) worked.items)) }
    ensures told { IfOk result (λ gathered. gathered.1
        ≡ told_in (map (λ done. done.ended) worked.items)) }
{
    let mut passes = Vec::new(alloc);
    let mut ended = Ok(());
    for done in worked {
        passes.push(done.pass)?;
        ended = told_of(ended, done.ended);
    }
    Ok((passes, ended))
}
