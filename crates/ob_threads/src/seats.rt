//! All seats of a script: seat 0, and the workers between its lines.

ghost use Rattle.std.specs.Prelude.{◌≡◌, ◌<◌, ◌+◌, [], All, IfOk, OnOk, length, map};
ghost use Rattle.std.specs.List.{AllZip};
ghost use Rattle.ob_requests.specs.Tables.{variables_in};
ghost use Rattle.ob_worker_lines.specs.Parts.{lines_in};
ghost use Rattle.ob_seats.specs.Kept.{AreHeld, for_worker};
ghost use Rattle.ob_seats.specs.Played.{IsSeatPlayed};
ghost use Rattle.ob_threads.specs.Played.{AreReceiptsOf, IsPlayedBy};
ghost use Rattle.ob_threads.specs.Run.{AreRun, AreWorkersRun, IsGiven};
ghost use Rattle.ob_threads.specs.Worked.{CanRun};

use crate::ends::told_of;
use crate::workers::{Job, gather, run_workers};
use ob_seats::{Callers, Seat, Stopped, run_seat};
use ob_worker_lines::{Part, WorkerScript};
use std::alloc::{AllocError, Global};
use std::sync::Wait;
use std::thread::Threads;

/// The results of a run of all seats: the passes `P`, that of seat 0 apart, and the end that is reported.
#[derive(Drop)]
pub struct Ran<P> {
    /// The pass of seat 0.
    pub own: P,
    /// How many receipts it had when the workers began, or has where none was started.
    pub begun: usize,
    /// The passes of the workers, in order.
    pub theirs: Vec<P>,
    /// Ok where every line was run; else which line was not, and why.
    pub ended: Result<(), Stopped>,
}

/// Runs a script that was cut: the lines before the workers by seat 0; then the workers, each in a thread of its own, all at once; and when all have
/// ended the lines after the join, by seat 0 again. If seat 0 stops before the workers, none is started.
///
/// The only fault is out of memory for the seats and threads themselves, and then the passes are lost. (this profile)
pub fn run_seats<H: Threads + Wait + Sync, C: Callers + Sync>(
    rt: &H,
    alloc: Global,
    callers: &C,
    script: &WorkerScript<'_>,
    own: C::Pass,
    theirs: Vec<C::Pass>,
) -> Result<Ran<C::Pass>, AllocError>
    requires before { CanRun script.now.before }
    requires workers { All CanRun script.now.workers.items }
    requires behind { CanRun script.now.behind }
    requires passes { length theirs.items ≡ length script.now.workers.items }
    requires own { C.receipts own ≡ [] }
    requires theirs { All (λ pass. C.receipts pass ≡ []) theirs.items }
    ensures seat { IfOk result (λ ran. C.seat_of ran.own ≡ C.seat_of own) }
    ensures seats { IfOk result (λ ran. map C.seat_of ran.theirs.items
        ≡ map C.seat_of theirs.items) }
    ensures played { IfOk result (λ ran.
        OnOk ran.ended (AreReceiptsOf (IsPlayedBy (lines_in script.now.before)
        (map lines_in script.now.workers.items) (lines_in script.now.behind)) ran.begun
        (C.receipts ran.own) (map C.receipts ran.theirs.items))) }

    // Whether every line was run or a seat stopped: what each seat ran, and the end that is reported.
    ensures run { IfOk result (λ ran. AreReceiptsOf (AreRun C.gives_fault script.now ran.ended) ran.begun
        (C.receipts ran.own) (map C.receipts ran.theirs.items)) }
{
    let mut seat = Seat::new(alloc)?;
    let (own, played) = seat.run_part(rt, callers, own, script.before);
    if let Err(stopped) = played {
        let (own, _is_whole) = seat.end(callers, own);
        let begun = C::count(&own);
        let ended = Err(stopped);
        return Ok(Ran {
            own,
            begun,
            theirs,
            ended,
        });
    }
    let begun = C::count(&own);
    match run_all(rt, alloc, callers, &seat, script.workers.as_slice(), theirs) {
        Err(want) => {
            let (_own, _is_whole) = seat.end(callers, own);
            Err(want)
        }
        Ok((theirs, ended)) => {
            let (own, last) = run_seat(rt, callers, seat, own, script.behind);
            let ended = told_of(ended, last);
            Ok(Ran {
                own,
                begun,
                theirs,
                ended,
            })
        }
    }
}

/// Runs all workers, with the variables of a seat.
fn run_all<H: Threads + Wait + Sync, C: Callers + Sync>(
    rt: &H,
    alloc: Global,
    callers: &C,
    seat: &Seat<C>,
    parts: &[Part<'_>],
    passes: Vec<C::Pass>,
) -> Result<(Vec<C::Pass>, Result<(), Stopped>), AllocError>
    requires parts { All CanRun parts.now }
    requires passes { length passes.items ≡ length parts.now }
    requires fresh { All (λ pass. C.receipts pass ≡ []) passes.items }
    ensures seats { IfOk result (λ ran. map C.seat_of (ran.0.items) ≡ map C.seat_of passes.items) }
    ensures played { IfOk result (λ ran.
        OnOk (ran.1) (AllZip (λ lines entries.
        IsSeatPlayed lines (for_worker (variables_in seat.now.variables)) entries)
        (map lines_in parts.now) (map C.receipts (ran.0.items)))) }
    ensures run { IfOk result (λ ran. AreWorkersRun (IsGiven C.gives_fault) parts.now
        (for_worker (variables_in seat.now.variables)) (map C.receipts (ran.0.items)) (ran.1)) }
{
    let jobs = jobs_of(alloc, seat, parts, passes)?;
    let worked = run_workers(rt, callers, jobs)?;
    gather(alloc, worked)
}

/// A job for each part, with the pass at its place and the variables of a seat.
fn jobs_of<'a, C: Callers>(
    alloc: Global,
    seat: &Seat<C>,
    parts: &[Part<'a>],
    passes: Vec<C::Pass>,
) -> Result<Vec<Job<'a, C>>, AllocError>
    requires passes { length passes.items ≡ length parts.now }
    ensures parts { IfOk result (λ jobs. map (λ job. job.part) jobs.items ≡ parts.now) }
    ensures passes { IfOk result (λ jobs. map (λ job. job.pass) jobs.items ≡ passes.items) }
    ensures variables { IfOk result (λ jobs. All (λ job. variables_in job.variables
        ≡ for_worker (variables_in seat.now.variables)) jobs.items) }
    ensures none { IfOk result (λ jobs.
        All (λ job. AreHeld (variables_in job.variables).tickets []) jobs.items) }
{
    let mut jobs = Vec::new(alloc);
    let mut passes = passes;
    for part in parts {
        let variables = seat.variables_for_worker()?;
        let pass = passes.remove(0);
        jobs.push(Job {
            pass,
            variables,
            part: *part,
        })?;
    }
    Ok(jobs)
}
