//! The export that reports deletions.

ghost use Rattle.std.specs.Prelude.{◌≡◌, Some};
ghost use Rattle.ob_host.specs.Deletions.{next_deletion};
ghost use Rattle.ob_c.specs.Deletions.{ReportsDeletion, ReportsNext, deletion_reported, no_deletion};

use ob_base::Status;
use ob_c_state::{HostCore, Ntns};
use ob_host::HostDeletion;
use ob_numbers::type_of_kind;
use std::alloc::Global;

/// A deletion of an object of the caller's, as a caller in C reads it. (this profile)
#[repr(C)]
#[derive(Clone, Copy)]
pub struct Deletion {
    /// The type's number.
    pub number: u32,
    /// The user data of its create, or of the object whose parse made it.
    pub user_data: u64,
    /// The id that a query of the object gave; 0 if no handle to it was ever given.
    pub id: u64,
    /// 1 if the parse of an open made the object, else 0.
    pub parsed: u8,
}

/// Reports the first deletion of an object of the caller's that wasn't reported yet; it is reported once. It takes no memory.
///
/// `NoMoreEntries` if none is left, and `InvalidParameter` if the namespace is closed: each field is 0 then, and nothing
/// changes. (this profile)
#[unsafe(no_mangle)]
pub extern "C" fn ntns_next_deletion(ns: &mut Ntns, alloc: Global, deletion: &mut Deletion) -> u32
    ensures { ReportsDeletion ns.old.core ns.new.core result deletion.new }
{
    *deletion = no_deletion();
    let Some(mut core) = ns.take(alloc) else {
        return Status::InvalidParameter.code();
    };
    let status = report_next(&mut core, deletion);
    ns.put(core);
    status
}

// Reports the first deletion that wasn't reported yet.
fn report_next(core: &mut HostCore, deletion: &mut Deletion) -> u32
    ensures { ReportsNext (next_deletion core.old.set) core.old (Some core.new) result deletion.new }
{
    let Some(next) = core.take_next() else {
        *deletion = no_deletion();
        return Status::NoMoreEntries.code();
    };
    *deletion = deletion_reported(&next);
    Status::Success.code()
}

// A deletion as a caller in C reads it.
fn deletion_reported(deletion: &HostDeletion) -> Deletion
    ensures { result ≡ deletion_reported deletion.now }
{
    Deletion {
        number: type_of_kind(deletion.kind),
        user_data: deletion.user_data,
        id: deletion.serial,
        parsed: if deletion.parsed { 1 } else { 0 },
    }
}

// The fields where there is no deletion: zeros.
fn no_deletion() -> Deletion
    ensures { result ≡ no_deletion }
{
    Deletion {
        number: 0,
        user_data: 0,
        id: 0,
        parsed: 0,
    }
}
