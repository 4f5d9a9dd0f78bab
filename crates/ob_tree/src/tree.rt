//! The text of a tree.

ghost use Rattle.std.specs.Prelude.{◌≡◌, ◌++◌, IfOk, OnOk, length, map, reverse};
ghost use Rattle.ob_tree.specs.Index.{AreInOrder, Rise, named_by};
ghost use Rattle.ob_tree.specs.Tree.{items_below, lines_text, objects_text, top_item, tree_of, unnamed};

use crate::entries::{Entry, entries_in};
use crate::index::all_entries;
use crate::lines::{Item, indent_below, push_items, push_line};
use crate::names::Names;
use crate::processes::push_processes;
use crate::style::{Branch, Style};
use crate::survey::Survey;
use ob_base::ObjId;
use ob_model::Bytes;
use std::alloc::{AllocError, Global};

/// The tree of a survey as text: a line an object, with its type and what holds of it, each entry below its directory, in order of the names byte for
/// byte; then the objects without a name, in order of their ids and each with its entries; then each process, with the directory of its device map
/// and its handles in their order. No value of a handle and no id is in the text. Paths lead from the root, or from an object without a name.
///
/// The objects are by rising ids. The only error is out of memory. (this profile)
pub fn tree_text(alloc: Global, survey: &Survey, style: Style) -> Result<Vec<u8>, AllocError>
    requires { Rise survey.now.objects }
    ensures { IfOk result (λ text. text.items ≡ tree_of style survey.now) }
{
    let names = Names::new(alloc, survey.objects())?;
    let entries = all_entries(alloc, survey.objects())?;
    let mut items = top_items(alloc, names.unnamed())?;
    let mut out = Vec::new(alloc);
    let count = survey.objects().len();
    push_lines(
        alloc,
        &mut out,
        &names,
        style,
        entries.as_slice(),
        count,
        &mut items,
    )?;
    push_processes(alloc, &mut out, &names, survey.processes())?;
    Ok(out)
}

/// The items of the objects without a name; the first is the last of them.
fn top_items(alloc: Global, ids: &[u64]) -> Result<Vec<Item>, AllocError>
    ensures { IfOk result (λ items. reverse items.items ≡ map top_item ids.now) }
{
    let mut items = Vec::new(alloc);
    for step in 0..ids.len() {
        items.push(top_item(alloc, ids[ids.len() - 1 - step]))?;
    }
    Ok(items)
}

/// The item of an object without a name.
fn top_item(alloc: Global, id: u64) -> Item
    ensures { result ≡ top_item id }
{
    Item {
        indent: Bytes::new(Vec::new(alloc)),
        branch: Branch::Top,
        object: ObjId(id),
    }
}

/// Adds the lines of items, of which the last one is next, each with those of its entries after it; no more than this many lines.
fn push_lines(
    alloc: Global,
    out: &mut Vec<u8>,
    names: &Names<'_>,
    style: Style,
    entries: &[Entry<'_>],
    count: usize,
    items: &mut Vec<Item>,
) -> Result<(), AllocError>
    requires { AreInOrder entries.now }
    ensures { OnOk result (out.new.items ≡ out.old.items
        ++ lines_text style names.now (map named_by entries.now) count (reverse items.old.items)) }
{
    for step in 0..count {
        let Some(item) = items.pop() else {
            return Ok(());
        };
        push_line(alloc, out, names, style, &item)?;
        push_below(alloc, items, style, entries, &item)?;
    }
    Ok(())
}

/// Adds the items of the entries of an object.
fn push_below(
    alloc: Global,
    items: &mut Vec<Item>,
    style: Style,
    entries: &[Entry<'_>],
    item: &Item,
) -> Result<(), AllocError>
    requires { AreInOrder entries.now }
    ensures { OnOk result (reverse items.new.items
        ≡ items_below style (map named_by entries.now) item.now ++ reverse items.old.items) }
{
    let indent = indent_below(alloc, style, item)?;
    push_items(
        alloc,
        items,
        indent.as_slice(),
        entries_in(entries, item.object.0),
    )
}
