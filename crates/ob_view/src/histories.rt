//! Histories that viewers see.

ghost use Rattle.std.specs.Prelude.{List};
ghost use Rattle.ob_published.specs.declared.publication.Publication.{Publication};
ghost use Rattle.ob_shared.specs.Publisher.{IsNamed};
ghost use Rattle.ob_view.specs.Histories.{SeesHistory};

use ob_published::Naming;
use ob_types::TypeSet;

/// The law of what a viewer sees. The publications of a namespace of the set are those of a history: its journal is that of a run, has as
/// many entries as the publications stand for, and leads to a state whose rows are the published ones. So what a lookup finds, or the
/// resolution of a path, is found in that state. Takes nothing and does nothing.
pub fn viewers_see_histories<T: TypeSet, J: Naming>()
    requires named { IsNamed T.procedures J.opening J.leads }
    ensures { (publications : List Publication) → J.leads publications
        → SeesHistory T.procedures J.opening publications }
{}
