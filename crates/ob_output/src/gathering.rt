//! Writing the output: in blocks, each of them once.

ghost use Rattle.std.specs.Prelude.{◌≡◌, ◌+◌, ◌≤◌, [], ◌++◌, length, vec_len, vec_capacity, OnOk, OnErr};
ghost use Rattle.ob_output.specs.Gathering.{Gathers};
ghost use Rattle.ob_output.specs.Writing.{AppendsFront};

use crate::writing::{Unwritten, write_out};
use std::io::Write;

/// Makes room for so many bytes in a block: where it has none, the block is written and emptied. The fault is that of a write, after which a
/// beginning of the block was written. (this profile)
pub fn make_room<W: Write>(
    writer: &mut W,
    block: &mut Vec<u8>,
    wanted: usize,
) -> Result<(), Unwritten>
    requires { wanted ≤ vec_capacity block.old }
    ensures ok { OnOk result (Gathers (W.contents writer.old)
        (W.contents writer.new) block.old.items [] block.new.items) }
    ensures room { OnOk result (vec_len block.new + wanted ≤ vec_capacity block.new) }
    ensures front { OnErr result
        (AppendsFront (W.contents writer.old) (W.contents writer.new) block.old.items) }
    ensures capacity { vec_capacity block.old ≤ vec_capacity block.new }

    // Nothing is written while there is room.
    ensures waits { vec_len block.old + wanted ≤ vec_capacity block.old → writer.new ≡ writer.old }
{
    let room = block.capacity() - block.len();
    if room < wanted {
        write_out(writer, block.as_slice())?;
        block.clear();
    }
    Ok(())
}

/// Gathers the bytes in a block. Where the block has no room for them, it is written and emptied first. The fault is that of a write, after which
/// a beginning of the block was written. (this profile)
pub fn gather<W: Write>(writer: &mut W, block: &mut Vec<u8>, bytes: &[u8]) -> Result<(), Unwritten>
    requires { length bytes.now ≤ vec_capacity block.old }
    ensures ok { OnOk result (Gathers (W.contents writer.old)
        (W.contents writer.new) block.old.items bytes.now block.new.items) }
    ensures front { OnErr result
        (AppendsFront (W.contents writer.old) (W.contents writer.new) (block.old.items
        ++ bytes.now)) }
    ensures capacity { vec_capacity block.old ≤ vec_capacity block.new }

    // Nothing is written while there is room.
    ensures waits { vec_len block.old + length bytes.now ≤ vec_capacity block.old → writer.new
        ≡ writer.old }
{
    make_room(writer, block, bytes.len())?;
    match block.extend_from_slice(bytes) {
        Ok(()) => Ok(()),
        Err(_) => unreachable!(),
    }
}
