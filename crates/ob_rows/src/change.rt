//! A change of the rows of a namespace.

ghost use Rattle.ob_rows.specs.Changes.{
  ChangesFollow,
  GoneOfNoRow,
  GoneUndoesAdded,
  ChangesKeepRising,
  CountsAccount,
};

use ob_model::Row;

/// A change of one row of a namespace. (this profile)
#[derive(Debug, Drop)]
pub enum RowChange {
    /// A row was added, after all others: its stamp is above theirs.
    Added(Row),
    /// The row of a stamp was taken away; where no row has that stamp, nothing changed.
    Gone(u64),
}

/// The laws of changes. The changes of two lists one after the other are those of the joined list; a stamp that
/// no row has takes nothing away; a row that is added and taken away again leaves the rows as they were; and
/// rows by rising stamps stay so, as long as each row that is added has a stamp above all others. Takes nothing
/// and does nothing.
pub fn changes_follow_one_another()
    ensures joined { ChangesFollow }
    ensures none { GoneOfNoRow }
    ensures undone { GoneUndoesAdded }
    ensures rising { ChangesKeepRising }
{}

/// The law by which changes are found from hints. Where stamps are listed as gone, each once and each of a row that went,
/// and they are as many as the rows that went, the rows that stay and those that come are the rows after these stamps
/// are taken away and those rows are added. Takes nothing and does nothing.
pub fn counts_account_for_all()
    ensures { CountsAccount }
{}
