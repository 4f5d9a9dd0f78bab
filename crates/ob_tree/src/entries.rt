//! Entries of directories, in order.

ghost use Rattle.std.specs.Prelude.{◌≡◌, map, filter, ◌==◌};
ghost use Rattle.ob_tree.specs.Index.{in_order, AreInOrder, named_by};

/// An entry of a directory: entries are in order of their directories, and in one directory in order of their names.
#[derive(PartialEq, Eq, PartialOrd, Ord, Drop)]
pub(crate) struct Entry<'a> {
    /// The directory.
    pub directory: u64,
    /// The name.
    pub name: &'a [u8],
    /// The object.
    pub object: u64,
}

/// Puts entries in order.
pub(crate) fn put_in_order(entries: &mut Vec<Entry<'_>>)
    ensures sorted { map named_by entries.new.items ≡ in_order (map named_by entries.old.items) }
    ensures order { AreInOrder entries.new.items }
{
    entries.sort_unstable();
}

/// The entries of a directory, among entries in order.
pub(crate) fn entries_in<'e, 'a>(entries: &'e [Entry<'a>], directory: u64) -> &'e [Entry<'a>]
    requires { AreInOrder entries.now }
    ensures { map named_by result.now ≡ filter (λ e. e.directory == directory) (map named_by entries.now) }
{
    let first = entries.partition_point(|entry| entry.directory < directory);
    let behind = entries.partition_point(|entry| entry.directory <= directory);
    &entries[first..behind.max(first)]
}
