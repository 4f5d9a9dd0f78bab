//! The run of a script with workers.

ghost use Rattle.std.specs.Prelude.{◌≡◌, ◌≢◌, false, ◌⊎◌, ◌≤◌, ◌<◌, ◌+◌, IfOk, IfErr, IfSome, IsErr, IsErrOf, OnOk, length, map, All};
ghost use Rattle.std.specs.List.{range_with_len};
ghost use Rattle.std.specs.Arc.{arc_value};
ghost use Rattle.ob_locked.specs.Opened.{fresh_pass, fresh_passes, most_seats};
ghost use Rattle.ob_worker_lines.specs.Parts.{IsFault, lines_in};
ghost use Rattle.ob_lines.specs.Lines.{lines_of};
ghost use Rattle.ob_output.specs.Fault.{is_unwritten};
ghost use Rattle.ob_output.specs.Reading.{StopsReading, TakesAtMost};
ghost use Rattle.ob_threads.specs.Faults.{IsFaultAt};
ghost use Rattle.ob_threads.specs.Played.{ArePasses, ArePassesOf, IsPlayedBy};
ghost use Rattle.ob_threads.specs.Run.{AreRun, IsFinished};
ghost use Rattle.ob_threads.specs.Worked.{CanRun};
ghost use Rattle.ob_threads.specs.Written.{Writes, WritesPart};

use crate::ends::{ThreadsEnding, ending_of};
use crate::journal::{write_bad_line, write_journal};
use crate::lent::Lent;
use crate::order::is_in_order;
use crate::seats::{Ran, run_seats};
use ob_output::{SCRIPT_LIMIT, ShellFault, read_script};
use ob_runner::SlabTable;
use ob_seats::Stopped;
use ob_shared::{Ended, Pass, Segment, Shared, open_shared};
use ob_standard::{Standard, StandardKind};
use ob_worker_lines::{CutFault, WorkerScript, cut};
use std::alloc::Global;
use std::io::{Read, Write};
use std::sync::ledger::{Blank, Ledger};
use std::sync::{Arc, Wait};
use std::thread::Threads;

/// Reads a script with workers, runs it over a shared namespace in the opening state, with a thread for each worker, and writes the journal;
/// docs/script.md has the language. The output differs from run to run, since nobody says in which order the steps of several threads come; but all
/// of them come after those of seat 0 before the first `thread`, and before those after `join`.
///
/// The script is read whole, and cut, before any line is run. If a line of it is bad, one line of output says so, and nothing is run.
///
/// The faults are `Read`, `TooLong` (more than 16,777,216 bytes) and `Mismatch`, after which nothing was written; and `Memory`, for the script, the
/// seats, the threads or a line of the journal, and `Write`, after which a beginning of the output was written. A line that finds no memory is no
/// fault: its seat stops there, and the journal is written. (this profile)
pub fn run_threads<H: Threads + Wait + Sync, L: Ledger + Send + Sync, R: Read, W: Write>(
    rt: &H,
    alloc: Global,
    blank: Blank,
    reader: &mut R,
    writer: &mut W,
) -> Result<ThreadsEnding, ShellFault>
    requires name { blank.name ≡ L.name }
    requires parts { blank.parts ≡ L.parts }
    requires whole { L.parts ≡ most_seats }
    // The bytes that were written are an output of the script that ended so.
    ensures whole { IfOk result (λ ending. IfSome (R.remaining reader.old) (λ script.
        Writes (W.contents writer.old) (W.contents writer.new) script ending)) }

    // After a fault it is a beginning of one, and of most faults nothing.
    ensures part { IfErr result (λ fault. IfSome (R.remaining reader.old) (λ script.
        WritesPart fault (W.contents writer.old) (W.contents writer.new) script)) }
    ensures unwritten { IfErr result (λ fault. is_unwritten fault ≡ false
        → fault ≢ ShellFault.Memory → W.contents writer.new ≡ W.contents writer.old) }

    // A script that is too long is never run, and no other is called so.
    ensures too_long { IsErrOf result ShellFault.TooLong
        → IfSome (R.remaining reader.old) (λ script. SCRIPT_LIMIT < length script) }
    ensures refused { IfSome (R.remaining reader.old) (λ script. SCRIPT_LIMIT < length script
        → IsErr result) }

    // Nothing is written of it; and out of memory is said only of as many bytes as a script may have.
    ensures long { IfSome (R.remaining reader.old) (λ script. SCRIPT_LIMIT < length script →
        IfErr result (λ fault. StopsReading fault (R.remaining reader.old) (R.remaining reader.new))
        × (W.contents writer.new ≡ W.contents writer.old)) }

    // However it ends, no more than one byte past the limit is read.
    ensures taken { TakesAtMost (R.remaining reader.old) (R.remaining reader.new)
        (SCRIPT_LIMIT + 1) }
{
    match read_script(alloc, reader) {
        Ok(script) => run_text::<H, L, W>(rt, alloc, blank, script.as_slice(), writer),
        Err(fault) => Err(fault),
    }
}

/// Runs a script that was read.
fn run_text<H: Threads + Wait + Sync, L: Ledger + Send + Sync, W: Write>(
    rt: &H,
    alloc: Global,
    blank: Blank,
    script: &[u8],
    writer: &mut W,
) -> Result<ThreadsEnding, ShellFault>
    requires name { blank.name ≡ L.name }
    requires parts { blank.parts ≡ L.parts }
    requires whole { L.parts ≡ most_seats }
    requires script { length script.now ≤ SCRIPT_LIMIT }
    ensures written { IfOk result (λ ending.
        Writes (W.contents writer.old) (W.contents writer.new) script.now ending) }
    ensures part { IfErr result (λ fault.
        WritesPart fault (W.contents writer.old) (W.contents writer.new) script.now) }
    ensures unwritten { IfErr result (λ fault. is_unwritten fault ≡ false
        → fault ≢ ShellFault.Memory → W.contents writer.new ≡ W.contents writer.old) }
    ensures fault { IfErr result (λ fault. fault ≢ ShellFault.TooLong) }
{
    match cut(alloc, script) {
        Ok(parts) => match play::<H, L>(rt, alloc, blank, &parts) {
            Ok(done) => {
                let seats = seats_of(&parts);
                match write_journal(alloc, writer, seats, done.sealed.as_slice(), &done.last) {
                    Ok(()) => Ok(ending_of(done.ended)),
                    Err(fault) => Err(fault),
                }
            }
            Err(fault) => Err(fault),
        },
        Err(fault) => tell(script, fault, writer),
    }
}

/// Reports why a script was not cut.
fn tell<W: Write>(
    script: &[u8],
    fault: CutFault,
    writer: &mut W,
) -> Result<ThreadsEnding, ShellFault>
    requires { IsFault (lines_of script.now) fault }
    ensures written { IfOk result (λ ending.
        Writes (W.contents writer.old) (W.contents writer.new) script.now ending) }
    ensures part { IfErr result (λ fault.
        WritesPart fault (W.contents writer.old) (W.contents writer.new) script.now) }
    ensures unwritten { IfErr result (λ fault. is_unwritten fault ≡ false
        → fault ≢ ShellFault.Memory → W.contents writer.new ≡ W.contents writer.old) }
    ensures fault { IfErr result (λ fault. fault ≢ ShellFault.TooLong) }
{
    match fault {
        CutFault::BadLine(number) => match write_bad_line(writer, number) {
            Ok(()) => Ok(ThreadsEnding::BadLine(number)),
            Err(unwritten) => Err(ShellFault::Write(unwritten)),
        },
        CutFault::Memory => Err(ShellFault::Memory),
    }
}

/// How many seats a script has: one, and one for each worker.
fn seats_of(parts: &WorkerScript<'_>) -> u32
    requires { length parts.now.workers.items ≤ 63 }
    ensures { result ≡ length parts.now.workers.items + 1 }
{
    parts.workers.len() as u32 + 1
}

/// The results of a run of a script: the segments of its journal, and how it ended.
#[derive(Drop)]
struct Finished {
    sealed: Vec<Arc<Segment<StandardKind>>>,
    last: Segment<StandardKind>,
    ended: Result<(), Stopped>,
}

/// Runs a script that was cut.
fn play<H: Threads + Wait + Sync, L: Ledger + Send + Sync>(
    rt: &H,
    alloc: Global,
    blank: Blank,
    parts: &WorkerScript<'_>,
) -> Result<Finished, ShellFault>
    requires name { blank.name ≡ L.name }
    requires parts { blank.parts ≡ L.parts }
    requires whole { L.parts ≡ most_seats }
    requires few { length parts.now.workers.items ≤ 63 }
    requires before { CanRun parts.now.before }
    requires workers { All CanRun parts.now.workers.items }
    requires behind { CanRun parts.now.behind }
    ensures finished { IfOk result (λ done.
        IsFinished parts.now (map arc_value done.sealed.items) done.last done.ended) }
    ensures fault { IfErr result (λ fault. (fault ≡ ShellFault.Memory)
        ⊎ (fault ≡ ShellFault.Mismatch)) }
{
    match open_shared::<Standard, SlabTable, L>(alloc, blank, Standard::new(), seats_of(parts)) {
        Ok((shared, passes)) => play_shared(rt, alloc, parts, shared, passes),
        Err(_) => Err(ShellFault::Memory),
    }
}

/// Runs a script over a namespace that was just opened, and closes it. It is a mismatch if the journal differs from the passes, or if its entries don't come
/// in order; a correct lock causes neither.
fn play_shared<H: Threads + Wait + Sync, L: Ledger + Send + Sync>(
    rt: &H,
    alloc: Global,
    parts: &WorkerScript<'_>,
    shared: Shared<Standard, SlabTable, L>,
    passes: Vec<Pass<StandardKind, L>>,
) -> Result<Finished, ShellFault>
    requires seats { shared ≡ length parts.now.workers.items + 1 }
    requires passes { passes.items ≡ fresh_passes (length parts.now.workers.items + 1) }
    requires before { CanRun parts.now.before }
    requires workers { All CanRun parts.now.workers.items }
    requires behind { CanRun parts.now.behind }
    ensures finished { IfOk result (λ done.
        IsFinished parts.now (map arc_value done.sealed.items) done.last done.ended) }
    ensures fault { IfErr result (λ fault. (fault ≡ ShellFault.Memory)
        ⊎ (fault ≡ ShellFault.Mismatch)) }
{
    let mut theirs = passes;
    let own = theirs.remove(0);
    match run_lent(&*rt, alloc, parts, &shared, own, theirs) {
        Ok(
            Returned {
                passes,
                begun,
                ended,
            },
        ) => match shared.close(passes) {
            Ok(
                Ended {
                    core: _,
                    sealed,
                    journal: last,
                },
            ) => {
                if is_in_order(begun, sealed.as_slice(), &last) {
                    Ok(Finished {
                        sealed,
                        last,
                        ended,
                    })
                } else {
                    Err(ShellFault::Mismatch)
                }
            }
            Err(_) => Err(ShellFault::Mismatch),
        },
        Err(fault) => Err(fault),
    }
}

/// The values that the threads of a script give back.
#[derive(Drop)]
struct Returned<L: Ledger> {
    /// All passes: those of the workers, and that of seat 0 after them.
    passes: Vec<Pass<StandardKind, L>>,
    /// How many receipts seat 0 had before the workers.
    begun: usize,
    /// The end that is reported.
    ended: Result<(), Stopped>,
}

/// Runs a script over a namespace that is lent to its threads.
fn run_lent<'a, H: Threads + Wait + Sync, L: Ledger + Send + Sync>(
    rt: &'a H,
    alloc: Global,
    parts: &WorkerScript<'_>,
    shared: &'a Shared<Standard, SlabTable, L>,
    own: Pass<StandardKind, L>,
    theirs: Vec<Pass<StandardKind, L>>,
) -> Result<Returned<L>, ShellFault>
    requires before { CanRun parts.now.before }
    requires workers { All CanRun parts.now.workers.items }
    requires behind { CanRun parts.now.behind }
    requires passes { length theirs.items ≡ length parts.now.workers.items }
    requires own { own ≡ fresh_pass 0 }
    requires theirs { theirs.items
        ≡ map fresh_pass (range_with_len 1 (length parts.now.workers.items)) }
    ensures passes { IfOk result (λ ran.
        ArePasses (length parts.now.workers.items) ran.passes.items) }
    ensures played { IfOk result (λ ran.
        OnOk ran.ended (ArePassesOf (IsPlayedBy (lines_in parts.now.before)
        (map lines_in parts.now.workers.items) (lines_in parts.now.behind)) ran.begun ran.passes.items)) }
    ensures run { IfOk result (λ ran.
        ArePassesOf (AreRun IsFaultAt parts.now ran.ended) ran.begun ran.passes.items) }
    ensures fault { IfErr result (λ fault. fault ≡ ShellFault.Memory) }
{
    let callers = Lent { shared, rt, alloc };
    match run_seats(rt, alloc, &callers, parts, own, theirs) {
        Ok(
            Ran {
                own,
                begun,
                theirs,
                ended,
            },
        ) => {
            let mut passes = theirs;
            match passes.push(own) {
                Ok(()) => Ok(Returned {
                    passes,
                    begun,
                    ended,
                }),
                Err(_) => Err(ShellFault::Memory),
            }
        }
        Err(_) => Err(ShellFault::Memory),
    }
}
