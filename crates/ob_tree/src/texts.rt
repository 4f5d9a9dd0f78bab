//! Texts that are added to a text.

ghost use Rattle.std.specs.Prelude.{◌≡◌, ◌++◌, OnOk};
ghost use Rattle.std.specs.Fmt.{decimal};
ghost use Rattle.ob_tree.specs.Tree.{count_text, flag_text};

use itoa::Buffer;
use std::alloc::AllocError;

/// Adds a number in decimal digits.
pub(crate) fn push_number(out: &mut Vec<u8>, number: u64) -> Result<(), AllocError>
    ensures { OnOk result (out.new.items ≡ out.old.items ++ decimal number) }
{
    let mut digits = Buffer::new();
    out.extend_from_slice(digits.format(number).as_bytes())
}

/// Adds a word, if it holds.
pub(crate) fn push_flag(out: &mut Vec<u8>, word: &[u8], holds: bool) -> Result<(), AllocError>
    ensures { OnOk result (out.new.items ≡ out.old.items ++ flag_text word.now holds) }
{
    if holds {
        out.extend_from_slice(word)
    } else {
        Ok(())
    }
}

/// Adds a word and a number, if it isn't 0.
pub(crate) fn push_count(out: &mut Vec<u8>, word: &[u8], count: u64) -> Result<(), AllocError>
    ensures { OnOk result (out.new.items ≡ out.old.items ++ count_text word.now count) }
{
    if count == 0 {
        return Ok(());
    }
    out.extend_from_slice(word)?;
    push_number(out, count)
}
