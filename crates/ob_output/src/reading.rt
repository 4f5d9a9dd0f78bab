//! Reading input whole, with a limit.

ghost use Rattle.std.specs.Prelude.{◌≡◌, ◌+◌, ◌<◌, ◌≤◌, ◌^◌, IfOk, IfErr, OnOk, IsErr, IfSome, IsErrOf, length, vec_len};
ghost use Rattle.ob_output.specs.Reading.{ReadsWhole, ReadsMore, StopsReading, StopsReadingAfter, StopsReadingAt};

use crate::fault::{ShellFault, Unread};
use std::alloc::Global;
use std::io::Read;

/// How many bytes a script may have: 16,777,216. (this profile)
pub const SCRIPT_LIMIT: usize = 16_777_216;

// How many bytes are asked of the reader at once.
const CHUNK: usize = 4096;

/// All bytes that the reader has left, of which there may be up to [`SCRIPT_LIMIT`].
///
/// Never more than `SCRIPT_LIMIT + 1` bytes are taken of the reader, and each of its reads is made
/// once: one that is interrupted is a fault as any other. So it returns whatever the reader does.
/// The faults are `TooLong`, where the reader gave `SCRIPT_LIMIT + 1` bytes; `Read`, where a read
/// failed; and `Memory`. After one, the bytes that were taken are lost, and the reader is
/// after them. (this profile)
pub fn read_script<R: Read>(alloc: Global, reader: &mut R) -> Result<Vec<u8>, ShellFault>
    // At any reader.
    ensures within { IfOk result (λ script. vec_len script ≤ SCRIPT_LIMIT) }

    // Where the reader's bytes are known.
    ensures whole { IfOk result (λ script.
        ReadsWhole (R.remaining reader.old) (R.remaining reader.new) script.items) }
    ensures exact { IfOk result (λ script.
        IfSome (R.remaining reader.old) (λ bytes. script.items ≡ bytes)) }
    ensures too_long { IsErrOf result ShellFault.TooLong →
        IfSome (R.remaining reader.old) (λ bytes. SCRIPT_LIMIT < length bytes) }
    ensures refused { IfSome (R.remaining reader.old) (λ bytes.
        SCRIPT_LIMIT < length bytes → IsErr result) }
    ensures fault { IfErr result (λ fault.
        StopsReading fault (R.remaining reader.old) (R.remaining reader.new)) }
{
    read_all(alloc, reader, SCRIPT_LIMIT)
}

/// All bytes that the reader has left, of which there may be up to `limit`, a number that has a next one.
///
/// Never more than `limit + 1` bytes are taken of the reader, and each of its reads is made once: one
/// that is interrupted is a fault as any other. So it returns whatever the reader does. The faults are
/// `TooLong`, where the reader gave `limit + 1` bytes; `Read`, where a read failed; and `Memory`. After
/// one, the bytes that were taken are lost, and the reader follows them. (this profile)
pub fn read_all<R: Read>(alloc: Global, reader: &mut R, limit: usize) -> Result<Vec<u8>, ShellFault>
    requires { limit + 1 < 2 ^ 64 }
    // At any reader.
    ensures within { IfOk result (λ text. vec_len text ≤ limit) }

    // Where the reader's bytes are known.
    ensures whole { IfOk result (λ text.
        ReadsWhole (R.remaining reader.old) (R.remaining reader.new) text.items) }
    ensures exact { IfOk result (λ text.
        IfSome (R.remaining reader.old) (λ bytes. text.items ≡ bytes)) }
    ensures too_long { IsErrOf result ShellFault.TooLong →
        IfSome (R.remaining reader.old) (λ bytes. limit < length bytes) }
    ensures refused { IfSome (R.remaining reader.old) (λ bytes.
        limit < length bytes → IsErr result) }
    ensures fault { IfErr result (λ fault.
        StopsReadingAt limit fault (R.remaining reader.old) (R.remaining reader.new)) }
{
    let mut text = Vec::new(alloc);
    loop {
        match take_more(reader, &mut text, limit) {
            Ok(0) => return Ok(text),
            Ok(_) => {}
            Err(fault) => return Err(fault),
        }
    }
}

// Adds the reader's next bytes to the text, and says how many: none only at the reader's end.
fn take_more<R: Read>(reader: &mut R, text: &mut Vec<u8>, limit: usize) -> Result<usize, ShellFault>
    requires limit { limit + 1 < 2 ^ 64 }
    requires within { vec_len text.old ≤ limit }
    ensures within { OnOk result (vec_len text.new ≤ limit) }
    ensures more { IfOk result (ReadsMore (R.remaining reader.old) (R.remaining reader.new)
        text.old.items text.new.items) }
    ensures fault { IfErr result (λ fault. StopsReadingAfter limit (vec_len text.old) fault
        (R.remaining reader.old) (R.remaining reader.new)) }
{
    let mut chunk = [0u8; CHUNK];
    let left = limit - text.len();
    let asked = if left < CHUNK { left + 1 } else { CHUNK };
    match reader.read(&mut chunk[..asked]) {
        Err(error) => Err(ShellFault::Read(Unread::from(error))),
        Ok(count) if left < count => Err(ShellFault::TooLong),
        Ok(count) => match text.extend_from_slice(&chunk[..count]) {
            Err(want) => Err(ShellFault::from(want)),
            Ok(()) => Ok(count),
        },
    }
}
