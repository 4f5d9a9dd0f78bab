//! The objects of a survey, and those of them that have no name.

ghost use Rattle.std.specs.Prelude.{◌≡◌, IfOk, count_by, nat_lt};
ghost use Rattle.std.specs.Option.{option_copied};
ghost use Rattle.ob_tree.specs.Index.{Rise};
ghost use Rattle.ob_tree.specs.Tree.{row_at, seen_at, unnamed};

use crate::index::{row_of, seen_object, unnamed_objects};
use crate::survey::Seen;
use ob_base::ObjId;
use ob_model::Row;
use std::alloc::{AllocError, Global};
use std::marker::Model;

/// The objects of a survey, by rising ids, with those that have no name. Contracts see the objects.
#[derive(Drop)]
pub(crate) struct Names<'a> {
    objects: &'a [Seen],
    unnamed: Vec<u64>,
}

impl<'a> Model for Names<'a> {
    ghost use Rattle.std.specs.Prelude.{◌≡◌, List};
    ghost use Rattle.ob_tree.specs.Index.{Rise};
    ghost use Rattle.ob_tree.specs.declared.survey.Seen.{Seen};
    ghost use Rattle.ob_tree.specs.Tree.{unnamed as unnamed_in};

    ghost Value = { List Seen };

    ghost view = { λ a. a.objects.now };

    ghost invariant = { λ a. Rise a.objects.now × (a.unnamed.items ≡ unnamed_in a.objects.now) };
}

impl<'a> Names<'a> {
    /// The objects without a name are looked up.
    pub(crate) fn new(alloc: Global, objects: &'a [Seen]) -> Result<Names<'a>, AllocError>
        requires { Rise objects.now }
        ensures { IfOk result (λ names. names ≡ objects.now) }
    {
        let unnamed = unnamed_objects(alloc, objects)?;
        Ok(Names { objects, unnamed })
    }

    /// The object of an id.
    pub(crate) fn seen(&self, object: ObjId) -> Option<&Seen>
        ensures { option_copied result ≡ seen_at self.now object }
    {
        seen_object(self.objects, object)
    }

    /// The row that names an object.
    pub(crate) fn row(&self, object: ObjId) -> Option<&Row>
        ensures { option_copied result ≡ row_at self.now object }
    {
        row_of(self.objects, object)
    }

    /// The objects without a name.
    pub(crate) fn unnamed(&self) -> &[u64]
        ensures { result.now ≡ unnamed self.now }
    {
        self.unnamed.as_slice()
    }

    /// How many of the objects without a name have lesser ids.
    pub(crate) fn number_of(&self, object: ObjId) -> usize
        ensures { result ≡ count_by (λ x. nat_lt x object) (unnamed self.now) }
    {
        self.unnamed.partition_point(|id| *id < object.0)
    }
}
