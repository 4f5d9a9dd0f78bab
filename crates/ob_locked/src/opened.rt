//! Opening a namespace with its passes.

ghost use Rattle.std.specs.Prelude.{◌≡◌, ◌≤◌, ◌<◌, ◌⊎◌, Err, IfOk, IfErr, []};
ghost use Rattle.ob_base.specs.declared.Fault.TheVariants.{Memory, Refused};
ghost use Rattle.ob_base.specs.declared.status.Status.TheVariants.{InvalidParameter};
ghost use Rattle.ob_model.specs.Opening.{opening};
ghost use Rattle.ob_locked.specs.Opened.{fresh_passes, most_seats};

use crate::{Locked, Pass};
use ob_base::{Fault, Status};
use ob_core::HandleTable;
use ob_types::TypeSet;
use std::alloc::{AllocError, Global};
use std::mem;
use std::sync::ledger::{Blank, Ledger, Share};

/// The most seats: each has a part of the ledger of its own.
const MOST_SEATS: u32 = 1024;

/// Opens a namespace for so many seats, 1 to 1,024: a [`Locked`] in the opening state, and a pass for each seat, at the place of its
/// number. The ledger is cut into 1,024 parts.
///
/// It fails with `InvalidParameter` exactly if no seat or more than 1,024 are requested, and with `Memory` if out of memory. Either drops
/// the set. (this profile)
pub fn open_locked<T: TypeSet, H: HandleTable, L: Ledger>(
    alloc: Global,
    blank: Blank,
    types: T,
    seats: u32,
) -> Result<(Locked<T, H, L>, Vec<Pass<T::Kind, L>>), Fault>
    requires name { blank.name ≡ L.name }
    requires parts { blank.parts ≡ L.parts }
    requires whole { L.parts ≡ most_seats }
    ensures first { IfOk result (λ opened. opened.0.first ≡ types) }
    ensures journal { IfOk result (λ opened. opened.0.journal
        ≡ record { sealed = []; unsealed = [] }) }
    ensures state { IfOk result (λ opened. opened.0.state ≡ opening types) }
    ensures passes { IfOk result (λ opened. opened.1.items ≡ fresh_passes seats) }
    ensures seats { (seats ≡ 0) ⊎ (most_seats < seats) → result ≡ Err (Refused InvalidParameter) }
    ensures memory { (0 < seats) → seats ≤ most_seats → IfErr result (λ fault. fault ≡ Memory) }
{
    if seats == 0 || seats > MOST_SEATS {
        return Err(Fault::Refused(Status::InvalidParameter));
    }
    let (locked, all) = Locked::open(alloc, blank, types)?;
    match cut_passes(alloc, all, seats) {
        Ok(passes) => Ok((locked, passes)),
        Err(_) => {
            // (by a call, since the drop of a namespace is long, and would be proved here anew)
            mem::drop(locked);
            Err(Fault::Memory)
        }
    }
}

/// Passes of so many seats. Each has a part of this share, which has them all and counts nothing, and that of seat 0 the
/// rest too.
fn cut_passes<K: Copy, L: Ledger>(
    alloc: Global,
    all: Share<L>,
    seats: u32,
) -> Result<Vec<Pass<K, L>>, AllocError>
    requires some { (0 < seats) × (seats ≤ most_seats) }
    requires whole { all.parts ≡ most_seats }
    requires none { all.amount ≡ 0 }
    ensures { IfOk result (λ passes. passes.items ≡ fresh_passes seats) }
{
    let mut rest = all;
    let mut passes = Vec::new(alloc);
    let first = rest.split_off(u64::from(MOST_SEATS - seats) + 1, 0);
    passes.push(Pass::new(alloc, 0, first))?;
    for seat in 1..seats {
        let share = rest.split_off(1, 0);
        passes.push(Pass::new(alloc, seat, share))?;
    }
    Ok(passes)
}
