//! The entries of a directory.

use ob_base::ObjId;
use ob_names::NameBuf;

/// One entry of an object directory: a name for an object.
///
/// Source: Windows Internals, Object Manager: object directories; the stamps are this profile.
#[derive(Debug, Drop)]
pub struct DirEntry {
    /// When it was inserted: any number, above those of the entries that came before it.
    pub stamp: u64,
    /// The component that it is found under, in the spelling that it was inserted with.
    pub name: NameBuf,
    /// The object that it names, with any id.
    pub object: ObjId,
}
