//! Lookups while a tree is written.

ghost use Rattle.std.specs.Prelude.{◌≡◌, map, IfOk};
ghost use Rattle.std.specs.Option.{option_copied};
ghost use Rattle.std.specs.List.{filter_map};
ghost use Rattle.ob_tree.specs.Index.{AreInOrder, Rise, named_by};
ghost use Rattle.ob_tree.specs.Tree.{entries, entry_of, unnamed, row_at, seen_at};

use crate::entries::{Entry, put_in_order};
use crate::survey::Seen;
use ob_base::ObjId;
use ob_model::Row;
use std::alloc::{AllocError, Global};

/// The entries of all directories, in order.
pub(crate) fn all_entries<'a>(
    alloc: Global,
    objects: &'a [Seen],
) -> Result<Vec<Entry<'a>>, AllocError>
    ensures sorted { IfOk result (λ es. map named_by es.items ≡ entries objects.now) }
    ensures order { IfOk result (λ es. AreInOrder es.items) }
{
    let mut found = unsorted_entries(alloc, objects)?;
    put_in_order(&mut found);
    Ok(found)
}

/// The entries of all directories, in order of their objects.
fn unsorted_entries<'a>(alloc: Global, objects: &'a [Seen]) -> Result<Vec<Entry<'a>>, AllocError>
    ensures { IfOk result (λ es. map named_by es.items ≡ map entry_of (filter_map (λ x. x.row) objects.now)) }
{
    let mut found = Vec::new(alloc);
    for object in objects {
        if let Some(row) = &object.row {
            found.push(entry_for(row))?;
        }
    }
    Ok(found)
}

/// The entry that a row is.
fn entry_for(row: &Row) -> Entry<'_>
    ensures { named_by result ≡ entry_of row.now }
{
    Entry {
        directory: row.directory.0,
        name: row.name.as_slice(),
        object: row.object.0,
    }
}

/// The objects without a name, by rising ids.
pub(crate) fn unnamed_objects(alloc: Global, objects: &[Seen]) -> Result<Vec<u64>, AllocError>
    ensures { IfOk result (λ ids. ids.items ≡ unnamed objects.now) }
{
    let mut found = Vec::new(alloc);
    for object in objects {
        if object.row.is_none() {
            found.push(object.id.0)?;
        }
    }
    Ok(found)
}

/// The object of an id.
pub(crate) fn seen_object(objects: &[Seen], object: ObjId) -> Option<&Seen>
    requires { Rise objects.now }
    ensures { option_copied result ≡ seen_at objects.now object }
{
    let place = objects.partition_point(|seen| seen.id.0 < object.0);
    let found = objects.get(place)?;
    if found.id == object {
        Some(found)
    } else {
        None
    }
}

/// The row that names an object.
pub(crate) fn row_of(objects: &[Seen], object: ObjId) -> Option<&Row>
    requires { Rise objects.now }
    ensures { option_copied result ≡ row_at objects.now object }
{
    let seen = seen_object(objects, object)?;
    seen.row.as_ref()
}
