//! The struct that a caller in C holds.

ghost use Rattle.std.specs.Prelude.{◌≡◌, None, Some, Option, Bool, true};
ghost use Rattle.std.specs.Option.{option_map};
ghost use Rattle.ob_c_state.specs.Machine.{Space};
ghost use Rattle.ob_c_state.specs.Caller.{core_coded, is_open, caller_owns};

use crate::machine::HostCore;
use crate::parts::Parts;
use std::alloc::Global;
use std::marker::Model;
use std::{mem, ptr};

/// A namespace as a caller in C holds it: two machine words, which are zeros if it is closed. If it is open, the first
/// points to what it owns, and is the library's own.
///
/// A contract sees the state of the abstract machine if it is open, and `None` if it is closed. (this profile)
#[repr(C)]
#[derive(Drop)]
pub struct Ntns {
    pointer: *mut u8,
    flag: u64,
    alloc: Global,
    /// The state where it is open.
    pub ghost core: { Option Space } by { core_coded },
}

impl Model for Ntns {
    ghost also_owns = { λ n. caller_owns n.alloc n.pointer n.flag n.core };
}

// A caller's struct, and whether it is open.
#[derive(Drop)]
struct Tested {
    is_open: bool,
    caller: Ntns,
}

impl Ntns {
    // The struct of zeros.
    fn closed(alloc: Global) -> Ntns
        ensures { result.core ≡ None }
    {
        Ntns {
            pointer: ptr::null_mut(),
            flag: 0,
            alloc,
        }
    }

    // The struct that owns the block of a core.
    fn of_parts(parts: Parts<HostCore, Global>) -> Ntns
        ensures { result.core ≡ Some parts.value }
    {
        let Parts { ptr, alloc } = parts;
        Ntns {
            pointer: ptr as *mut u8,
            flag: 1,
            alloc,
        }
    }

    // The block that an open struct owns.
    fn into_parts(self) -> Parts<HostCore, Global>
        requires { is_open self.core ≡ true }
        ensures { Some result.value ≡ self.core }
    {
        let Ntns {
            pointer,
            flag: _,
            alloc,
        } = self;
        Parts {
            ptr: pointer as *mut HostCore,
            alloc,
        }
    }

    // Whether the struct is open.
    fn tested(self) -> Tested
        ensures { (result.is_open ≡ is_open self.core) × (result.caller.core ≡ self.core) }
    {
        let Ntns {
            pointer,
            flag,
            alloc,
        } = self;
        let is_open = flag == 1;
        Tested {
            is_open,
            caller: Ntns {
                pointer,
                flag,
                alloc,
            },
        }
    }

    /// Puts a core into the struct, which is open then. It forgets what it owned, so it is to be closed.
    pub fn put(&mut self, core: Box<HostCore>)
        requires { self.old.core ≡ None }
        ensures { self.new.core ≡ Some core.value }
    {
        *self = Ntns::of_parts(Parts::of(core));
    }

    /// Takes the core out of the struct, which is closed then; `None` if it was closed.
    pub fn take(&mut self, alloc: Global) -> Option<Box<HostCore>>
        ensures closed { self.new.core ≡ None }
        ensures taken { option_map (λ core. core.value) result ≡ self.old.core }
    {
        let closed = Ntns::closed(alloc);
        let tested = mem::replace(self, closed).tested();
        if !tested.is_open {
            return None;
        }
        Some(tested.caller.into_parts().into_box())
    }
}
