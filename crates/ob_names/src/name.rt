//! Names: a checked slice, and one that owns its bytes.

ghost use Rattle.std.specs.Prelude.{◌≡◌, ◌<◌, ◌≤◌, ◌↔◌, length, false};
ghost use Rattle.std.specs.Prelude.{IsTrue, IsOk, IfOk, IfErr};
ghost use Rattle.ob_model.specs.Names.{is_name, is_profile_text, longest_name};
ghost use Rattle.ob_names.specs.Reading.{refusal_of};

use ob_base::Status;
use smallvec::SmallVec;
use std::alloc::{AllocError, Global};
use std::marker::Model;

/// The most bytes that a name has: 32,767.
///
/// Source: UNICODE_STRING structure (Windows Driver Kit), whose 16-bit length in bytes has room for
/// 32,767 characters of two bytes. That a character is one byte is this profile.
pub const LONGEST_NAME: usize = 32_767;

/// A name: at most 32,767 bytes, each from 0x20 to 0x7E, in a slice that was checked for that. It
/// may be empty, and may hold separators. A contract sees a `Name` as the list of its bytes.
///
/// Source: OBJECT_ATTRIBUTES structure and UNICODE_STRING structure (Windows Driver Kit); the range
/// of the bytes is this profile.
#[derive(Debug, Drop)]
pub struct Name<'a> {
    bytes: &'a [u8],
}

impl<'a> Model for Name<'a> {
    ghost use Rattle.std.specs.Prelude.{List, ℕ, IsTrue};
    ghost use Rattle.ob_model.specs.Names.{is_name};

    ghost Value = { List ℕ };

    ghost view = { λ name. name.bytes.now };

    ghost invariant = { λ name. IsTrue (is_name name.bytes.now) };
}

impl<'a> Name<'a> {
    /// Checks bytes, of any number and any values, and reads them as a name.
    ///
    /// Refused with `ObjectNameInvalid` where a byte is not from 0x20 to 0x7E, however many bytes
    /// there are; else with `NameTooLong` where there are more than 32,767. Nothing is changed by a
    /// refusal. Source: this profile.
    pub fn read(bytes: &'a [u8]) -> Result<Name<'a>, Status>
        ensures ok { IsOk result ↔ IsTrue (is_name bytes.now) }
        ensures value { IfOk result (λ name. name ≡ bytes.now) }

        // Where a byte is bad and there are too many, the byte is reported. No other error comes.
        ensures invalid { (result ≡ Err Status.ObjectNameInvalid)
            ↔ (is_profile_text bytes.now ≡ false) }
        ensures too_long { (result ≡ Err Status.NameTooLong)
            ↔ (IsTrue (is_profile_text bytes.now) × (longest_name < length bytes.now)) }
        ensures refused { IfErr result (λ status. status ≡ refusal_of bytes.now) }
    {
        if !is_profile_text(bytes) {
            return Err(Status::ObjectNameInvalid);
        }
        if bytes.len() > LONGEST_NAME {
            return Err(Status::NameTooLong);
        }
        Ok(Name::new(bytes))
    }

    /// The name in bytes that are known to be one, as a part of a name is: they are not read again.
    pub fn new(bytes: &'a [u8]) -> Name<'a>
        requires { IsTrue (is_name bytes.now) }
        ensures { result ≡ bytes.now }
    {
        Name { bytes }
    }

    /// The name's bytes, as the slice that was read.
    pub fn as_slice(&self) -> &'a [u8]
        ensures bytes { result.now ≡ self.now }
        ensures name { IsTrue (is_name result.now) }
    {
        self.bytes
    }
}

/// Whether each byte is one of the profile, from 0x20 to 0x7E. (this profile)
pub fn is_profile_text(bytes: &[u8]) -> bool
    ensures { result ≡ is_profile_text bytes.now }
{
    bytes
        .iter()
        .fold(true, |good, byte| good & matches!(byte, 0x20..=0x7E))
}

/// A name that owns its bytes: at most 32,767, each from 0x20 to 0x7E. Up to 16 of them lie in the value
/// itself, more in memory of their own. A contract sees a `NameBuf` as the list of its bytes.
#[derive(Debug, Drop)]
pub struct NameBuf {
    bytes: SmallVec<u8, 16>,
}

impl Model for NameBuf {
    ghost use Rattle.std.specs.Prelude.{List, ℕ, IsTrue};
    ghost use Rattle.ob_model.specs.Names.{is_name};

    ghost Value = { List ℕ };

    ghost view = { λ name. name.bytes.items };

    ghost invariant = { λ name. IsTrue (is_name name.bytes.items) };
}

impl NameBuf {
    /// The name with these bytes, which are known to be one: they are taken as they are.
    pub fn new(bytes: Vec<u8>) -> NameBuf
        requires { IsTrue (is_name bytes.items) }
        ensures { result ≡ bytes.items }
    {
        NameBuf {
            bytes: SmallVec::from_vec(bytes),
        }
    }

    /// A copy of a name. The only error is out of memory, which a name of up to 16 bytes doesn't take.
    pub fn from_name(alloc: Global, name: Name<'_>) -> Result<NameBuf, AllocError>
        ensures copied { IfOk result (λ owned. owned ≡ name.entry) }
        ensures no_memory { length name.entry ≤ 16 → IsOk result }
    {
        Ok(NameBuf {
            bytes: SmallVec::from_slice(alloc, name.as_slice())?,
        })
    }

    /// Another name with the same bytes. The only error is out of memory, which a name of up to 16 bytes doesn't take.
    pub fn copy(&self) -> Result<NameBuf, AllocError>
        ensures copied { IfOk result (λ copy. copy ≡ self.now) }
    {
        Ok(NameBuf {
            bytes: self.bytes.clone()?,
        })
    }

    /// The name, as a slice that is known to be one.
    pub fn as_name(&self) -> Name<'_>
        ensures bytes { result ≡ self.now }
        ensures name { IsTrue (is_name result) }
    {
        Name {
            bytes: self.bytes.as_slice(),
        }
    }

    /// The name's bytes.
    pub fn as_slice(&self) -> &[u8]
        ensures bytes { result.now ≡ self.now }
        ensures name { IsTrue (is_name result.now) }
    {
        self.bytes.as_slice()
    }
}
