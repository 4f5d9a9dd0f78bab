//! Queries that a viewer answers from the rows that it sees.

ghost use Rattle.ob_view.specs.Answered.{Answers};

use crate::path::{named, resolved};
use ob_base::ObjId;
use ob_rows::RowTable;

/// A query of a viewer.
#[derive(Clone, Copy)]
pub(crate) enum Query<'a> {
    /// A component in a directory.
    Component {
        directory: ObjId,
        component: &'a [u8],
        fold: bool,
    },
    /// An absolute path.
    Path {
        path: &'a [u8],
        fold: bool,
    },
}

/// The object that a query finds among these rows.
pub(crate) fn answer(rows: &RowTable, query: &Query<'_>) -> Option<ObjId>
    ensures { Answers rows.now query.now result }
{
    match query {
        Query::Component {
            directory,
            component,
            fold,
        } => named(rows, *directory, component, *fold),
        Query::Path { path, fold } => resolved(rows, path, *fold),
    }
}
