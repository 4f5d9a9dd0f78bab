//! Exports that open, copy and close a namespace.

ghost use Rattle.std.specs.Prelude.{◌≡◌, None};
ghost use Rattle.ob_c_state.specs.Calls.{IsCopied, IsOpened, OpensIn};

use ob_base::Status;
use ob_c_state::{HostCore, Ntns};
use std::alloc::Global;

/// Opens a namespace: the opening state, with process 1 alone, in which nothing was opened or deleted.
///
/// `Success`; `InvalidParameter` if it is open already, and then it stays as it is; and `NoMemory` if out of memory, and then
/// it stays closed. (this profile)
#[unsafe(no_mangle)]
pub extern "C" fn ntns_open(ns: &mut Ntns, alloc: Global) -> u32
    ensures { IsOpened ns.old.core ns.new.core result }
{
    if let Some(core) = ns.take(alloc) {
        ns.put(core);
        return Status::InvalidParameter.code();
    }
    match HostCore::new(alloc) {
        Ok(core) => open_in(ns, alloc, core),
        Err(_) => Status::NoMemory.code(),
    }
}

/// Opens a namespace in the state of another, `from`, which stays as it is: with the same values of handles, ids, pending
/// opens, and deletions that weren't reported yet. A call of one changes nothing of the other.
///
/// `Success`; `InvalidParameter` if `from` is closed or `to` is open, and then both stay as they are; and `NoMemory` if out
/// of memory, and then `to` stays closed. (this profile)
#[unsafe(no_mangle)]
pub extern "C" fn ntns_copy_raw(from: &mut Ntns, alloc: Global, to: &mut Ntns) -> u32
    ensures copied { IsCopied from.old.core to.old.core to.new.core result }
    ensures same { from.new.core ≡ from.old.core }
{
    if let Some(core) = to.take(alloc) {
        to.put(core);
        return Status::InvalidParameter.code();
    }
    let Some(core) = from.take(alloc) else {
        return Status::InvalidParameter.code();
    };
    let copy = core.copy(alloc);
    from.put(core);
    match copy {
        Ok(copy) => open_in(to, alloc, copy),
        Err(_) => Status::NoMemory.code(),
    }
}

// Opens a closed namespace in the state of a core.
fn open_in(ns: &mut Ntns, alloc: Global, core: HostCore) -> u32
    requires { ns.old.core ≡ None }
    ensures { OpensIn core ns.new.core result }
{
    match Box::new(alloc, core) {
        Ok(core) => {
            ns.put(core);
            Status::Success.code()
        }
        Err(_) => Status::NoMemory.code(),
    }
}

/// Closes a namespace, whether it is open or not, and gives back all memory that it owned: the struct is zeros again, and may
/// be opened anew. (this profile)
#[unsafe(no_mangle)]
pub extern "C" fn ntns_close(ns: &mut Ntns, alloc: Global)
    ensures { ns.new.core ≡ None }
{
    let _core = ns.take(alloc);
}
