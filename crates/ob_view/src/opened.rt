//! A shared namespace with viewers.

ghost use Rattle.std.specs.Prelude.{◌≡◌, ◌≤◌, ◌<◌, ◌^◌, ◌⊎◌, [], Err, All, IfOk, IfErr, length};
ghost use Rattle.ob_base.specs.declared.Fault.TheVariants.{Memory, Refused};
ghost use Rattle.ob_base.specs.declared.status.Status.TheVariants.{InvalidParameter};
ghost use Rattle.ob_locked.specs.Opened.{fresh_passes, most_seats};
ghost use Rattle.ob_mirror.specs.Mirrored.{Follows};
ghost use Rattle.ob_model.specs.Opening.{opening};
ghost use Rattle.ob_segments.specs.Journal.{whole};
ghost use Rattle.ob_shared.specs.Publisher.{IsNamed, Keeps};
ghost use Rattle.ob_view.specs.Viewed.{most_viewers};

use crate::Viewer;
use ob_base::{Fault, Status};
use ob_core::HandleTable;
use ob_locked::{Locked, Pass, open_locked};
use ob_mirror::Mirror;
use ob_published::{Naming, Opened, Showing};
use ob_shared::Shared;
use ob_types::TypeSet;
use std::alloc::{AllocError, Global};
use std::sync::Wait;
use std::sync::ledger::{Blank, Ledger};

/// The most viewers of a namespace. (this profile)
pub const MOST_VIEWERS: u32 = 16;

/// A shared namespace that publishes, the passes of its seats, and its viewers. (this profile)
#[derive(Drop)]
pub struct ViewedNamespace<T: TypeSet, H: HandleTable, L: Ledger, J: Naming, R: Wait + Drop> {
    /// The namespace.
    pub shared: Shared<T, H, L, Showing<J, R>>,
    /// The passes: at each place that of the seat of its number.
    pub passes: Vec<Pass<T::Kind, L>>,
    /// The viewers, which know of no publication yet.
    pub viewers: Vec<Viewer<J>>,
}

/// Opens a namespace in the opening state for so many seats, 1 to 1,024, and so many viewers, 1 to 16, which see its opening rows
/// until the first publish. `rt` is how a publish waits for viewers that still read the copy from before the last one, and how the
/// drop waits for those that are left.
///
/// It fails with `InvalidParameter` exactly if the seats or the viewers are out of range, and with `Memory` if out of memory.
/// Either drops the set. (this profile)
pub fn open_viewed<T: TypeSet, H: HandleTable, L: Ledger, J: Naming, R: Wait + Drop>(
    alloc: Global,
    rt: R,
    blank: Blank,
    opened: Opened,
    types: T,
    seats: u32,
    viewers: u32,
) -> Result<ViewedNamespace<T, H, L, J, R>, Fault>
    requires name { blank.name ≡ L.name }
    requires parts { blank.parts ≡ L.parts }
    requires whole { L.parts ≡ most_seats }
    requires book { opened.seen.book ≡ J.book }
    requires named { IsNamed T.procedures J.opening J.leads }
    ensures seats { IfOk result (λ opened. opened.shared ≡ seats) }
    ensures passes { IfOk result (λ opened. opened.passes.items ≡ fresh_passes seats) }
    ensures viewers { IfOk result (λ opened. (length opened.viewers.items ≡ viewers)
        × All (λ viewer. viewer ≡ []) opened.viewers.items) }
    ensures range { (seats ≡ 0) ⊎ (most_seats < seats) ⊎ (viewers ≡ 0) ⊎ (most_viewers < viewers)
        → result ≡ Err (Refused InvalidParameter) }
    ensures memory { (0 < seats) → seats ≤ most_seats → (0 < viewers) → viewers ≤ most_viewers
        → IfErr result (λ fault. fault ≡ Memory) }
{
    if viewers == 0 || viewers > MOST_VIEWERS {
        drop(types);
        return Err(Fault::Refused(Status::InvalidParameter));
    }
    let (mut locked, passes) = open_locked(alloc, blank, types, seats)?;
    match watch(alloc, rt, opened, &mut locked, viewers) {
        Ok((mirror, showing, viewers)) => Ok(ViewedNamespace {
            shared: Shared::new(alloc, locked, seats, mirror, showing),
            passes,
            viewers,
        }),
        Err(_) => {
            // (by a call, since the drop of a namespace is long, and would be proved here anew)
            drop(locked);
            drop(passes);
            Err(Fault::Memory)
        }
    }
}

// The copy of the rows of a namespace in the opening state, what shows them, and so many viewers. From now on the namespace lists
// the names that are removed.
fn watch<T: TypeSet, H: HandleTable, L: Ledger, J: Naming, R: Wait + Drop>(
    alloc: Global,
    rt: R,
    opened: Opened,
    locked: &mut Locked<T, H, L>,
    viewers: u32,
) -> Result<(Mirror, Showing<J, R>, Vec<Viewer<J>>), AllocError>
    requires book { opened.seen.book ≡ J.book }
    requires named { IsNamed T.procedures J.opening J.leads }
    requires state { locked.old.state ≡ opening locked.old.first }
    requires journal { whole locked.old.journal ≡ [] }
    requires viewers { (0 < viewers) × (viewers ≤ most_viewers) }
    ensures history { locked.new ≡ locked.old }
    ensures keeps { IfOk result (λ watched.
        Keeps T.procedures J.opening J.leads (watched.0) (watched.1.published) locked.old) }
    ensures viewers { IfOk result (λ watched. (length watched.2.items ≡ viewers)
        × All (λ viewer. viewer ≡ []) watched.2.items) }
{
    locked.list_removed();
    let copies = (
        rows_of(alloc, locked)?.into_rows(),
        rows_of(alloc, locked)?.into_rows(),
    );
    let mut mirror = rows_of(alloc, locked)?;
    drop(mirror.take_changes());
    let showing = Showing::open(alloc, rt, opened, copies, viewers as usize)?;
    let viewers = seated(alloc, &showing, viewers)?;
    Ok((mirror, showing, viewers))
}

// So many viewers, which know of no publication.
fn seated<J: Naming, R: Wait + Drop>(
    alloc: Global,
    showing: &Showing<J, R>,
    viewers: u32,
) -> Result<Vec<Viewer<J>>, AllocError>
    ensures length { IfOk result (λ seated. length seated.items ≡ viewers) }
    ensures none { IfOk result (λ seated. All (λ viewer. viewer ≡ []) seated.items) }
{
    let mut seated = Vec::new(alloc);
    for _seat in 0..viewers {
        seated.push(Viewer::new(showing.seat()?))?;
    }
    Ok(seated)
}

// A copy of the rows of a namespace, made from nothing.
fn rows_of<T: TypeSet, H: HandleTable, L: Ledger>(
    alloc: Global,
    locked: &Locked<T, H, L>,
) -> Result<Mirror, AllocError>
    ensures rows { IfOk result (λ mirror. mirror.rows ≡ locked.now.state.rows) }
    ensures follows { IfOk result (λ mirror. Follows mirror.rows mirror.next locked.now.state) }
{
    locked.is_kept();
    let mut mirror = Mirror::new(alloc);
    mirror.follow(locked.core())?;
    Ok(mirror)
}
