//! Reading a line.

ghost use Rattle.std.specs.Prelude.{IfErr, IfOk};
ghost use Rattle.ob_session.specs.Taken.{IsUnread, TakesLine};

use ob_output::{ShellFault, Unread};
use std::io::{BufRead, ErrorKind};

/// Reads the reader's next line into `line`, without its LF; `false` if the reader is at its end. The fault is `Memory` where the line found no
/// memory, and otherwise `Read`; after it the bytes that were read are lost.
pub(crate) fn take_line<R: BufRead>(reader: &mut R, line: &mut Vec<u8>) -> Result<bool, ShellFault>
    ensures taken { IfOk result (λ there.
        TakesLine there (R.remaining reader.old) (R.remaining reader.new) line.new.items) }
    ensures fault { IfErr result IsUnread }
{
    line.clear();
    match reader.read_until(b'\n', line) {
        Ok(0) => Ok(false),
        Ok(_) => {
            if line.as_slice().ends_with(b"\n") {
                line.pop();
            }
            Ok(true)
        }
        Err(error) => match error.kind() {
            ErrorKind::OutOfMemory => Err(ShellFault::Memory),
            _ => Err(ShellFault::Read(Unread::from(error))),
        },
    }
}
