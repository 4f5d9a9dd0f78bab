//! The check of a journal that a reader has.

ghost use Rattle.std.specs.Prelude.{◌≡◌, ◌≢◌, ◌+◌, ◌<◌, ◌≤◌, false, length, IfOk, IfErr, IsErr, IfSome, IsErrOf};
ghost use Rattle.ob_output.specs.Fault.{is_unwritten};
ghost use Rattle.ob_output.specs.Reading.{StopsLong, StopsReadingAt, TakesAtMost};
ghost use Rattle.ob_journal.specs.Verdict.{WritesPart, WritesVerdict};

use crate::verdict::{Verdict, write_verdict};
use ob_output::{ShellFault, read_all};
use std::alloc::Global;
use std::io::{Read, Write};

/// How many bytes a journal may have: 268,435,456. (this profile)
pub const JOURNAL_LIMIT: usize = 268_435_456;

/// Reads a journal, checks it, and writes the verdict in a line; docs/journal.md has the format.
///
/// The journal is read whole before it is checked, and each read and each write is made once. The faults are `Read`,
/// `TooLong` (more than 268,435,456 bytes) and `Memory`, after which nothing was written, and `Write`, after which a
/// beginning of the line was written. The writer is not flushed. (this profile)
pub fn run_replay<R: Read, W: Write>(
    alloc: Global,
    reader: &mut R,
    writer: &mut W,
) -> Result<Verdict, ShellFault>
    // The bytes that were written are the line of the verdict on the journal.
    ensures verdict { IfOk result (λ verdict. IfSome (R.remaining reader.old) (λ journal.
        WritesVerdict (W.contents writer.old) (W.contents writer.new) journal verdict)) }

    // After a fault of the writer it is a beginning of that line, and not all of it; after any other nothing.
    ensures part { (unwritten : _) → IsErrOf result (ShellFault.Write unwritten) →
        IfSome (R.remaining reader.old) (λ journal.
        WritesPart (W.contents writer.old) (W.contents writer.new) journal) }
    ensures unwritten { IfErr result (λ fault. is_unwritten fault ≡ false →
        W.contents writer.new ≡ W.contents writer.old) }

    // Those are all the faults that there are.
    ensures faults { IfErr result (λ fault. fault ≢ ShellFault.Mismatch) }

    // A journal that is too long is never checked, and no other is called so: it is reported, unless reading it
    // failed before.
    ensures too_long { IsErrOf result ShellFault.TooLong
        → IfSome (R.remaining reader.old) (λ journal.
        JOURNAL_LIMIT < length journal) }
    ensures refused { IfSome (R.remaining reader.old) (λ journal. JOURNAL_LIMIT < length journal
        → IsErr result) }
    ensures long { IfSome (R.remaining reader.old) (λ journal. JOURNAL_LIMIT < length journal →
        IfErr result StopsLong × (W.contents writer.new ≡ W.contents writer.old)) }

    // Out of memory is said only of as many bytes as a journal may have, so one that was read past that is too long.
    ensures stopped { IfSome (R.remaining reader.old) (λ journal. JOURNAL_LIMIT < length journal →
        IfErr result (λ fault. StopsReadingAt JOURNAL_LIMIT fault
        (R.remaining reader.old) (R.remaining reader.new))) }

    // However it ends, no more than one byte past the limit is read.
    ensures taken { TakesAtMost (R.remaining reader.old) (R.remaining reader.new)
        (JOURNAL_LIMIT + 1) }
{
    match read_all(alloc, reader, JOURNAL_LIMIT) {
        Ok(journal) => write_verdict(alloc, journal.as_slice(), writer),
        Err(fault) => Err(fault),
    }
}
