//! The lines of objects.

ghost use Rattle.std.specs.Prelude.{◌≡◌, ◌++◌, [], IfOk, OnOk, map, reverse};
ghost use Rattle.std.specs.Option.{option_map_or};
ghost use Rattle.ob_tree.specs.Index.{named_by};
ghost use Rattle.ob_tree.specs.Tree.{bar_text, columns, connector_text, details_text, items_of, label_text, line_text, middle_item, padded, seen_at, target_text};

use crate::entries::Entry;
use crate::names::Names;
use crate::paths::{push_label, push_place};
use crate::style::{Branch, Style};
use crate::survey::Seen;
use crate::texts::{push_count, push_flag};
use ob_base::ObjId;
use ob_model::Bytes;
use std::alloc::{AllocError, Global};

// The characters of the first column.
const WIDTH: usize = 40;

/// A line that is still to be written.
#[derive(Drop)]
pub(crate) struct Item {
    /// The text before it, for the directories around it.
    pub indent: Bytes,
    /// Where it is among those of its directory.
    pub branch: Branch,
    /// Its object.
    pub object: ObjId,
}

/// How many characters a text has.
fn columns_of(text: &[u8]) -> usize
    ensures { result ≡ columns text.now }
{
    text.iter()
        .filter(|byte| **byte < 0x80 || **byte >= 0xC0)
        .count()
}

/// Adds spaces to a text up to 40 characters.
fn pad(text: &mut Vec<u8>) -> Result<(), AllocError>
    ensures { OnOk result (text.new.items ≡ padded text.old.items) }
{
    let missing = WIDTH.saturating_sub(columns_of(text.as_slice()));
    for space in 0..missing {
        text.extend_from_slice(b" ")?;
    }
    Ok(())
}

/// Adds the target of a link.
fn push_target(out: &mut Vec<u8>, target: &Option<Bytes>) -> Result<(), AllocError>
    ensures { OnOk result (out.new.items ≡ out.old.items ++ target_text target.now) }
{
    let Some(target) = target else {
        return Ok(());
    };
    out.extend_from_slice(b" -> ")?;
    out.extend_from_slice(target.as_slice())
}

/// Adds what follows the name of an object.
fn push_details(
    alloc: Global,
    out: &mut Vec<u8>,
    names: &Names<'_>,
    object: &Seen,
) -> Result<(), AllocError>
    ensures { OnOk result (out.new.items ≡ out.old.items ++ details_text names.now object.now) }
{
    out.extend_from_slice(object.type_name.as_slice())?;
    push_flag(out, b" permanent", object.permanent)?;
    push_flag(out, b" exclusive", object.exclusive)?;
    push_count(out, b" handles ", object.handles)?;
    push_count(out, b" pinned ", object.pins)?;
    push_place(alloc, out, names, b" shadow ", object.shadow)?;
    push_target(out, &object.target)
}

/// The first column of a line.
fn first_column(
    alloc: Global,
    names: &Names<'_>,
    style: Style,
    item: &Item,
) -> Result<Vec<u8>, AllocError>
    ensures { IfOk result (λ text. text.items
        ≡ padded (item.now.indent ++ connector_text style item.now.branch ++ label_text names.now item.now.object)) }
{
    let mut text = Vec::new(alloc);
    text.extend_from_slice(item.indent.as_slice())?;
    text.extend_from_slice(style.connector(item.branch))?;
    push_label(&mut text, names, item.object)?;
    pad(&mut text)?;
    Ok(text)
}

/// Adds the line of an object.
pub(crate) fn push_line(
    alloc: Global,
    out: &mut Vec<u8>,
    names: &Names<'_>,
    style: Style,
    item: &Item,
) -> Result<(), AllocError>
    ensures { OnOk result (out.new.items ≡ out.old.items ++ line_text style names.now item.now) }
{
    let column = first_column(alloc, names, style, item)?;
    out.extend_from_slice(column.as_slice())?;
    out.extend_from_slice(b" ")?;
    push_found(alloc, out, names, item.object)?;
    out.extend_from_slice(b"\n")
}

/// Adds what follows the name of an object, if it is there.
fn push_found(
    alloc: Global,
    out: &mut Vec<u8>,
    names: &Names<'_>,
    object: ObjId,
) -> Result<(), AllocError>
    ensures { OnOk result (out.new.items ≡ out.old.items
        ++ option_map_or (details_text names.now) (seen_at names.now object) []) }
{
    match names.seen(object) {
        Some(seen) => push_details(alloc, out, names, seen),
        None => Ok(()),
    }
}

/// The text before the lines below one.
pub(crate) fn indent_below(alloc: Global, style: Style, item: &Item) -> Result<Vec<u8>, AllocError>
    ensures { IfOk result (λ text. text.items ≡ item.now.indent ++ bar_text style item.now.branch) }
{
    let mut text = Vec::new(alloc);
    text.extend_from_slice(item.indent.as_slice())?;
    text.extend_from_slice(style.bar(item.branch))?;
    Ok(text)
}

/// An item of an entry.
fn item_of(
    alloc: Global,
    indent: &[u8],
    branch: Branch,
    entry: &Entry<'_>,
) -> Result<Item, AllocError>
    ensures { IfOk result (λ item. item ≡ record { indent = indent.now; branch = branch; object = entry.now.object }) }
{
    Ok(Item {
        indent: Bytes::from_slice(alloc, indent)?,
        branch,
        object: ObjId(entry.object),
    })
}

/// Adds the entries of a directory to the items that are still to be written, of which the last one is next.
pub(crate) fn push_items(
    alloc: Global,
    items: &mut Vec<Item>,
    indent: &[u8],
    entries: &[Entry<'_>],
) -> Result<(), AllocError>
    ensures { OnOk result (reverse items.new.items
        ≡ items_of indent.now (map named_by entries.now) ++ reverse items.old.items) }
{
    let Some((last, others)) = entries.split_last() else {
        return Ok(());
    };
    items.push(item_of(alloc, indent, Branch::Last, last)?)?;
    push_middle_items(alloc, items, indent, others)?;
    Ok(())
}

/// Adds the items of entries that others follow.
fn push_middle_items(
    alloc: Global,
    items: &mut Vec<Item>,
    indent: &[u8],
    entries: &[Entry<'_>],
) -> Result<(), AllocError>
    ensures { OnOk result (reverse items.new.items
        ≡ map (λ e. middle_item indent.now e.object) entries.now ++ reverse items.old.items) }
{
    for step in 0..entries.len() {
        let entry = &entries[entries.len() - 1 - step];
        items.push(item_of(alloc, indent, Branch::Middle, entry)?)?;
    }
    Ok(())
}
