//! Absolute paths, walked component by component among rows.

ghost use Rattle.std.specs.Prelude.{◌≡◌};
ghost use Rattle.ob_model.specs.State.{root_id};
ghost use Rattle.ob_view.specs.Viewed.{IsResolved, IsWalked, object_among};

use ob_base::ObjId;
use ob_names::{Component, first};
use ob_rows::RowTable;

// The root directory.
const ROOT: ObjId = ObjId(1);

// The byte that separates components.
const SEPARATOR: u8 = b'\\';

/// The object of an absolute path, of any length and with any bytes, among these rows, by own entries alone: the root for `\`, and
/// none where a component finds nothing or the path isn't absolute.
pub(crate) fn resolved(rows: &RowTable, path: &[u8], fold: bool) -> Option<ObjId>
    ensures { IsResolved rows.now path.now fold result }
{
    if path.is_empty() {
        return None;
    }
    if path == [SEPARATOR].as_slice() {
        return Some(ROOT);
    }
    walked(rows, path, fold)
}

// The object of a path from the root, each component after a separator.
fn walked(rows: &RowTable, path: &[u8], fold: bool) -> Option<ObjId>
    ensures { IsWalked rows.now root_id path.now fold result }
{
    let mut directory = ROOT;
    let mut left = path;
    while let Some((byte, text)) = left.split_first() {
        if *byte != SEPARATOR {
            return None;
        }
        let Component::One { name, rest } = first(text) else {
            return None;
        };
        directory = named(rows, directory, name, fold)?;
        left = rest;
    }
    Some(directory)
}

/// The object that a component finds in a directory among these rows.
pub(crate) fn named(
    rows: &RowTable,
    directory: ObjId,
    component: &[u8],
    fold: bool,
) -> Option<ObjId>
    ensures { result ≡ object_among rows.now directory component.now fold }
{
    rows.find(directory, component, fold)
        .map(|(_, object)| object)
}
