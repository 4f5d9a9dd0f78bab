//! Where in a script with workers a line is, and whether it is right there.

ghost use Rattle.std.specs.Prelude.{◌≡◌, ◌≤◌, length, IfErr, IfNone, IfOk, IfSome};
ghost use Rattle.ob_lines.specs.Misfits.{IsFew};
ghost use Rattle.ob_worker_lines.specs.declared.phase.Phase.{Phase};
ghost use Rattle.ob_worker_lines.specs.Cuts.{join_line, thread_line};
ghost use Rattle.ob_worker_lines.specs.Phases.{BeginsWorker, EndsWorkers, HasFewWorkers, IsRight, IsWrong, RightScriptsAreCut, start_text};

use crate::script::MOST_WORKERS;
use ob_lines::{Misfit, misfit_of};

/// Where in a script with workers a line is. (this profile)
#[derive(Clone, Copy, PartialEq, Eq, Debug)]
pub enum Phase {
    /// Before the first `thread`.
    Before,
    /// Among the lines of the worker of this number, from 1 to 63.
    Worker(usize),
    /// After `join`.
    After,
}

impl Phase {
    /// With what a line of the phase may begin, in the words of docs/script.md: at most 32 bytes.
    pub fn start_text(self) -> &'static [u8]
        ensures text { result.now ≡ start_text self }
        ensures short { length result.now ≤ 32 }
    {
        match self {
            Phase::Before => b"P, stat, seal or thread",
            Phase::Worker(MOST_WORKERS) => b"P, stat, seal or join",
            Phase::Worker(_) => b"P, stat, seal, thread or join",
            Phase::After => b"P, stat or seal",
        }
    }
}

/// The phase of the line that follows this one, given without its LF; or, where it is no line of a script with workers or is in a
/// wrong place, where it stops. (this profile)
pub fn judge_line(line: &[u8], phase: Phase) -> Result<Phase, Misfit>
    requires { HasFewWorkers phase }
    ensures right { IfOk result (λ next. IsRight phase line.now next) }
    ensures few_workers { IfOk result HasFewWorkers }
    ensures wrong { IfErr result (λ misfit. IsWrong phase line.now misfit) }
    ensures few_parts { IfErr result (λ misfit. IsFew misfit.expected) }
{
    if let Some(next) = phase_after(line, phase) {
        return Ok(next);
    }
    if line == b"seal".as_slice() {
        return Ok(phase);
    }
    match misfit_of(line) {
        None => Ok(phase),
        Some(misfit) => Err(misfit),
    }
}

// The phase that a `thread` or a `join` begins where it is in a right place.
fn phase_after(line: &[u8], phase: Phase) -> Option<Phase>
    requires { HasFewWorkers phase }
    ensures thread { IfSome result (λ next. IsRight phase line.now next) }
    ensures few { IfSome result HasFewWorkers }
    ensures none { IfNone result (((next : Phase) → line.now ≡ thread_line → ¬ BeginsWorker phase next)
        × ((next : Phase) → line.now ≡ join_line → ¬ EndsWorkers phase next)) }
{
    match (line, phase) {
        (b"thread", Phase::Before) => Some(Phase::Worker(1)),
        (b"thread", Phase::Worker(number)) if number < MOST_WORKERS => {
            Some(Phase::Worker(number + 1))
        }
        (b"join", Phase::Worker(_)) => Some(Phase::After),
        _ => None,
    }
}

/// The law that a script can be cut into the lines of its seats where all its lines are right, and only there. The call does nothing; a caller
/// makes it to have the fact.
pub fn right_scripts_are_cut()
    ensures { RightScriptsAreCut }
{}
