//! Paths and names of objects.

ghost use Rattle.std.specs.Prelude.{◌≡◌, ◌++◌, map, IfOk, OnOk};
ghost use Rattle.ob_model.specs.Naming.{names_joined};
ghost use Rattle.ob_tree.specs.Tree.{label_text, path_below, path_text, place_text, top_text, unnamed_text};

use crate::names::Names;
use crate::texts::push_number;
use ob_base::ObjId;
use std::alloc::{AllocError, Global};

// The root directory.
const ROOT: ObjId = ObjId(1);

/// The way up from an object.
#[derive(Drop)]
struct WayUp<'a> {
    /// Where it ends.
    top: ObjId,
    /// The names on it, the object's own first.
    names: Vec<&'a [u8]>,
}

/// Adds the text of an object without a name.
fn push_unnamed(out: &mut Vec<u8>, names: &Names<'_>, object: ObjId) -> Result<(), AllocError>
    ensures { OnOk result (out.new.items ≡ out.old.items ++ unnamed_text names.now object) }
{
    out.extend_from_slice(b"(no name) ")?;
    push_number(out, names.number_of(object) as u64)
}

/// Adds what a path begins with.
fn push_top(out: &mut Vec<u8>, names: &Names<'_>, object: ObjId) -> Result<(), AllocError>
    ensures { OnOk result (out.new.items ≡ out.old.items ++ top_text names.now object) }
{
    if object == ROOT {
        Ok(())
    } else {
        push_unnamed(out, names, object)
    }
}

/// The way up from an object, which has no more names than its id.
fn way_up<'n>(alloc: Global, names: &'n Names<'_>, object: ObjId) -> Result<WayUp<'n>, AllocError>
    ensures { IfOk result (λ way. path_below object names.now object
        ≡ top_text names.now way.top ++ names_joined (map (λ name. name.now) way.names.items)) }
{
    let mut way = Vec::new(alloc);
    let mut top = object;
    for step in 0..object.0 {
        let Some(row) = names.row(top) else {
            return Ok(WayUp { top, names: way });
        };
        way.push(row.name.as_slice())?;
        top = row.directory;
    }
    Ok(WayUp { top, names: way })
}

/// Adds the names of a way up, the last of them first.
fn push_names(out: &mut Vec<u8>, way: &[&[u8]]) -> Result<(), AllocError>
    ensures { OnOk result (out.new.items ≡ out.old.items ++ names_joined (map (λ name. name.now) way.now)) }
{
    for step in 0..way.len() {
        let name = way[way.len() - 1 - step];
        out.extend_from_slice(b"\\")?;
        out.extend_from_slice(name)?;
    }
    Ok(())
}

/// Adds the path of an object.
pub(crate) fn push_path(
    alloc: Global,
    out: &mut Vec<u8>,
    names: &Names<'_>,
    object: ObjId,
) -> Result<(), AllocError>
    ensures { OnOk result (out.new.items ≡ out.old.items ++ path_text names.now object) }
{
    if object == ROOT {
        return out.extend_from_slice(b"\\");
    }
    let way = way_up(alloc, names, object)?;
    push_top(out, names, way.top)?;
    push_names(out, way.names.as_slice())
}

/// Adds a word and the path of an object, if there is one.
pub(crate) fn push_place(
    alloc: Global,
    out: &mut Vec<u8>,
    names: &Names<'_>,
    word: &[u8],
    place: Option<ObjId>,
) -> Result<(), AllocError>
    ensures { OnOk result (out.new.items ≡ out.old.items ++ place_text names.now word.now place) }
{
    let Some(object) = place else {
        return Ok(());
    };
    out.extend_from_slice(word)?;
    push_path(alloc, out, names, object)
}

/// Adds the name of an object in its line.
pub(crate) fn push_label(
    out: &mut Vec<u8>,
    names: &Names<'_>,
    object: ObjId,
) -> Result<(), AllocError>
    ensures { OnOk result (out.new.items ≡ out.old.items ++ label_text names.now object) }
{
    match names.row(object) {
        Some(row) => out.extend_from_slice(row.name.as_slice()),
        None if object == ROOT => out.extend_from_slice(b"\\"),
        None => push_unnamed(out, names, object),
    }
}
