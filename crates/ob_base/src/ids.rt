//! The numbers of processes, objects and handles. A contract sees each as its number.

ghost use Rattle.std.specs.Prelude.{◌≡◌, ℕ};
ghost use Rattle.ob_base.specs.Handle.{key_of};

use std::marker::Model;

/// A process, by its number: from 1 to 2^32 - 2, rising, and never used again. (this profile)
#[derive(Clone, Copy, PartialEq, Eq, PartialOrd, Ord, Hash, Debug)]
pub struct Proc(pub u32);

impl Model for Proc {
    ghost Value = { ℕ };

    ghost view = { λ process. process.0 };

    ghost inverse = { λ number. record { 0 = number } };
}

/// An object, by its id: from 1 to 2^64 - 2, rising, and never used again. (this profile)
#[derive(Clone, Copy, PartialEq, Eq, PartialOrd, Ord, Hash, Debug)]
pub struct ObjId(pub u64);

impl Model for ObjId {
    ghost Value = { ℕ };

    ghost view = { λ id. id.0 };

    ghost inverse = { λ number. record { 0 = number } };
}

/// A handle value as a caller hands it in: any 32-bit number.
///
/// Values that are handed out are multiples of four, from 4 to 262,140. Source: Windows Internals
/// on handles, and the Windows Driver Kit's "ZwClose"; the greatest value is this profile's.
#[derive(Clone, Copy, PartialEq, Eq, PartialOrd, Ord, Hash, Debug)]
pub struct Handle(pub u32);

impl Model for Handle {
    ghost Value = { ℕ };

    ghost view = { λ handle. handle.0 };

    ghost inverse = { λ number. record { 0 = number } };
}

impl Handle {
    /// The value under which a process's table would hold the handle: the number with its two low
    /// bits cleared, which are the caller's own. It is a multiple of four. `None` where it is 0,
    /// which is no handle. Source: Windows Internals on handles.
    pub fn key(self) -> Option<u32>
        ensures { result ≡ key_of self }
    {
        let key = self.0 & !3;
        if key == 0 { None } else { Some(key) }
    }
}
