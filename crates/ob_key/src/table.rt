//! Tables of keys.

ghost use Rattle.std.specs.Prelude.{◌≡◌, IfOk, IfSome, IsTrue, map};
ghost use Rattle.std.specs.Cmp.{partial_equiv_from_equiv};
ghost use Rattle.std.specs.List.{find, list_all};
ghost use Rattle.std.specs.Option.{option_copied};
ghost use Rattle.ob_model.specs.Names.{is_profile_text};
ghost use Rattle.ob_key.specs.Entries as entries;
ghost use Rattle.ob_key.specs.Equality.{tables_equiv};

use crate::{KeyEntry, KeyTarget};
use ob_plain::split;
use std::alloc::{AllocError, Global};
use std::marker::Model;

/// The entries below one root, in the order of the arguments that they were read from. A contract sees a table
/// as the list of its entries.
///
/// A path is found in a time that grows with the number of the entries. (this profile)
#[derive(Debug, Drop)]
pub struct KeyTable {
    entries: Vec<KeyEntry>,
}

impl Model for KeyTable {
    ghost use Rattle.std.specs.Prelude.{List};
    ghost use Rattle.ob_key.specs.declared.entry.KeyEntry.{KeyEntry};

    ghost Value = { List KeyEntry };

    ghost view = { λ table. table.entries.items };
}

impl KeyTable {
    /// The entries between the semicolons of arguments; empty arguments have none. They need
    /// not be fit for one table. The only error is out of memory. (this profile)
    pub(crate) fn read(alloc: Global, args: &[u8]) -> Result<KeyTable, AllocError>
        requires { IsTrue (is_profile_text args.now) }
        ensures { IfOk result (λ table. table ≡ entries.entries_of args.now) }
    {
        let mut entries = Vec::new(alloc);
        for piece in &split(alloc, args)? {
            entries.push(KeyEntry::read(alloc, piece)?)?;
        }
        Ok(KeyTable { entries })
    }

    /// Whether the entries may be in one table: each is fit, and each two are apart. The time grows with
    /// the square of the number of the entries. (this profile)
    pub(crate) fn is_fit(&self) -> bool
        ensures { result ≡ entries.is_table self.now }
    {
        all_fit(self.entries.as_slice()) && all_apart(self.entries.as_slice())
    }

    /// Whether a key of this path is there: the path is that of an entry without a target, or a front of an entry's
    /// path that ends before a backslash. (this profile)
    pub(crate) fn is_there(&self, path: &[u8]) -> bool
        ensures { result ≡ entries.is_there self.now path.now }
    {
        self.entries.iter().any(|entry| entry.makes(path))
    }

    /// The target of the link of this path; `None` where no link has it. (this profile)
    pub(crate) fn target_of(&self, path: &[u8]) -> Option<&KeyTarget>
        ensures { option_copied result ≡ entries.target_of self.now path.now }
    {
        link_of(self.entries.as_slice(), path)?.target.as_ref()
    }
}

/// Two tables are equal where they have the same entries in the same order, byte by byte. (this profile)
impl PartialEq for KeyTable {
    ghost eq = { entries.same_tables };

    ghost laws = { partial_equiv_from_equiv tables_equiv };

    fn eq(&self, other: &KeyTable) -> bool {
        self.entries == other.entries
    }
}

impl Eq for KeyTable {
    ghost laws = { tables_equiv };
}

// The first link of this path among some entries.
fn link_of<'a>(all: &'a [KeyEntry], path: &[u8]) -> Option<&'a KeyEntry>
    ensures { option_copied result ≡ find (entries.is_link_of path.now) all.now }
{
    all.iter()
        .find(|entry| entry.is_link() && entry.path.as_slice() == path)
}

// Whether each entry is fit.
fn all_fit(all: &[KeyEntry]) -> bool
    ensures { result ≡ list_all entries.is_fit all.now }
{
    all.iter().all(|entry| entry.is_fit())
}

// Whether an entry is apart from each of some others.
fn apart_from_all(entry: &KeyEntry, others: &[KeyEntry]) -> bool
    ensures { result ≡ list_all (entries.are_apart entry.now) others.now }
{
    others.iter().all(|other| entry.is_apart(other))
}

// Whether each entry is apart from each later one.
fn all_apart(all: &[KeyEntry]) -> bool
    ensures { result ≡ entries.all_apart all.now }
{
    let mut left = all;
    while let Some((entry, behind)) = left.split_first() {
        if !apart_from_all(entry, behind) {
            return false;
        }
        left = behind;
    }
    true
}
