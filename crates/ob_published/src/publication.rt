//! A publication.

ghost use Rattle.ob_published.specs.Publications.{PublicationsFollow, EntriesFollow};

use ob_rows::RowChange;
use std::collections::VecDeque;

/// The entries of the journal since the publication before, and their changes of the rows. (this profile)
#[derive(Debug, Drop)]
pub struct Publication {
    /// How many entries of the journal were made since the last publication.
    pub entries: u64,
    /// How these entries changed the rows, in turn.
    pub changes: VecDeque<RowChange>,
}

/// The laws of publications. The rows after two lists of publications, one after the other, are those after the joined
/// list, and so with how many entries are published. Takes nothing and does nothing.
pub fn publications_follow_one_another()
    ensures rows { PublicationsFollow }
    ensures entries { EntriesFollow }
{}
