//! The copy of the rows that viewers read.

ghost use Rattle.std.specs.Prelude.{◌≡◌, IsTrue};
ghost use Rattle.ob_rows.specs.Changes.{Fits};

use crate::Publication;
use crate::book::Law;
use left_right::Absorb;
use logbook::Seen;
use ob_rows::{RowChange, RowTable};
use std::alloc::AllocError;

/// The copy that viewers read: rows, and the publications after which they are the rows. (this profile)
#[derive(Drop)]
pub struct Shown {
    /// The rows.
    pub rows: RowTable,
    /// How many publications there were.
    pub publications: u64,
    /// How many entries of the journal these stand for.
    pub entries: u64,
    /// The publications themselves, which exist in the proofs alone.
    pub seen: Seen<Publication, u64, Law>,
}

/// Up to where the changes lead: which publications, how many they are, and how many entries of the journal they stand for.
#[derive(Drop)]
pub struct Reach {
    /// How many publications there are.
    pub publications: u64,
    /// How many entries of the journal these stand for.
    pub entries: u64,
    /// The publications themselves, which exist in the proofs alone.
    pub seen: Seen<Publication, u64, Law>,
}

/// One step by which the copy follows the publications. Readers see no copy between the changes of a publication and
/// what these lead to.
#[derive(Drop)]
pub enum Op {
    /// A change of the rows.
    Change(RowChange),
    /// The changes so far lead up to here.
    Reached(Reach),
}

impl Absorb<Op> for Shown {
    ghost use Rattle.ob_published.specs.Shown.{stepped};

    type State = Shown;

    ghost state = { λ shown. shown };

    ghost applied = { stepped };

    // A row whose stamp isn't above all others is refused as if memory had run out: the writer adds none.
    fn absorb_first(&mut self, operation: &Op, _other: &Shown) -> Result<(), AllocError> {
        match operation {
            Op::Change(change) => {
                if !fits(&self.rows, change) {
                    return Err(AllocError);
                }
                self.rows.apply(change)
            }
            Op::Reached(reach) => {
                self.publications = reach.publications;
                self.entries = reach.entries;
                self.seen = reach.seen.again();
                Ok(())
            }
        }
    }
}

// Whether a change may follow these rows.
fn fits(rows: &RowTable, change: &RowChange) -> bool
    ensures { IsTrue result → Fits rows.now change.now }
{
    match change {
        RowChange::Added(row) => rows.accepts(row.stamp),
        RowChange::Gone(_) => true,
    }
}
