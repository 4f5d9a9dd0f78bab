//! Writing bytes: each write once.

ghost use Rattle.std.specs.Prelude.{OnOk, OnErr};
ghost use Rattle.std.specs.Io.KnownBytes.{Appends};
ghost use Rattle.ob_output.specs.Writing.{AppendsFront};

use std::io::{ErrorKind, Write};

/// Why bytes were not written: the kind of the error that a writer answered, or that it took no byte. Only a write
/// that failed so makes one, and none is made twice: what holds one has met such a write. (this profile)
#[derive(PartialEq, Eq, Debug, Drop)]
pub struct Unwritten {
    kind: ErrorKind,
}

/// Writes the bytes, all and in order, and nothing else.
///
/// Each write is made once: one that is interrupted, that fails or that takes no byte is the only fault.
/// After it a beginning of the bytes was written, and not all of them. It
/// returns whatever the writer does; no bytes are written without a call of the writer. The writer
/// is not flushed. (this profile)
pub fn write_out<W: Write>(writer: &mut W, bytes: &[u8]) -> Result<(), Unwritten>
    ensures ok { OnOk result (Appends (W.contents writer.old) (W.contents writer.new) bytes.now) }
    ensures front { OnErr result
        (AppendsFront (W.contents writer.old) (W.contents writer.new) bytes.now) }
{
    let mut rest = bytes;
    while !rest.is_empty() {
        match writer.write(rest) {
            Ok(0) => return Err(Unwritten {
                kind: ErrorKind::WriteZero,
            }),
            Ok(count) => rest = &rest[count..],
            Err(error) => return Err(Unwritten { kind: error.kind() }),
        }
    }
    Ok(())
}
