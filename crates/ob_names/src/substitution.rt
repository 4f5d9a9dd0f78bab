//! Substitution: what a lookup goes on with after a link.

ghost use Rattle.std.specs.Prelude.{◌≡◌, ◌<◌, ◌↔◌, ◌⊎◌, ◌++◌, length, IsTrue, IfOk, IfErr};
ghost use Rattle.ob_model.specs.Names.{is_profile_text, longest_name, substituted};
ghost use Rattle.ob_model.specs.Names.{ends_in_separator, begins_with_separator};

use crate::component::SEPARATOR;
use crate::{LONGEST_NAME, NameBuf};
use ob_base::{Fault, Status};
use std::alloc::Global;

/// A link's target followed by the rest of a name, as a name of its own. Where the target ends in a
/// separator and the rest begins with one, one of the two is dropped. Either may be empty, and
/// either may be of any length, with bytes from 0x20 to 0x7E.
///
/// Refused with `NameTooLong` exactly where the result would have more than 32,767 bytes, however
/// much memory there is; the only other fault is `Memory`. Nothing is changed by a fault.
///
/// Source: Windows Internals, symbolic links, for the target that takes the place of the names
/// before the rest; the dropped separator and the limit on the result are this profile.
pub fn substitute(alloc: Global, target: &[u8], rest: &[u8]) -> Result<NameBuf, Fault>
    requires target_profile { IsTrue (is_profile_text target.now) }
    requires rest_profile { IsTrue (is_profile_text rest.now) }
    ensures value { IfOk result (λ name. name ≡ substituted target.now rest.now) }
    ensures too_long { (result ≡ Err (Fault.Refused Status.NameTooLong))
        ↔ (longest_name < length (substituted target.now rest.now)) }
    ensures refused { IfErr result (λ fault. (fault ≡ Fault.Memory)
        ⊎ (fault ≡ Fault.Refused Status.NameTooLong)) }
{
    let behind = behind(target, rest);
    if target.len() + behind.len() > LONGEST_NAME {
        return Err(Fault::Refused(Status::NameTooLong));
    }
    let mut bytes = Vec::with_capacity(alloc, target.len() + behind.len())?;
    bytes.extend_from_slice(target)?;
    bytes.extend_from_slice(behind)?;
    Ok(NameBuf::new(bytes))
}

// The part of the rest that follows the target: all of it, except the first of two separators that meet.
fn behind<'a>(target: &[u8], rest: &'a [u8]) -> &'a [u8]
    ensures { target.now ++ result.now ≡ substituted target.now rest.now }
{
    if ends_in_separator(target) && begins_with_separator(rest) {
        &rest[1..]
    } else {
        rest
    }
}

// Whether the last byte is a separator.
#[tactic(auto, using(crate::proofs::Separators::last_byte))]
fn ends_in_separator(text: &[u8]) -> bool
    ensures { result ≡ ends_in_separator text.now }
{
    matches!(text, [.., SEPARATOR])
}

// Whether the first byte is a separator.
fn begins_with_separator(text: &[u8]) -> bool
    ensures { result ≡ begins_with_separator text.now }
{
    matches!(text, [SEPARATOR, ..])
}
