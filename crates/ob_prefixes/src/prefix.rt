//! Prefixes of texts that are walked, as the keys of a cache.

ghost use Rattle.std.specs.Prelude.{◌≡◌, ◌≤◌, [], ◌∷◌, ◌++◌, length, IsOk, IfOk};
ghost use Rattle.std.specs.Cmp.{partial_equiv_from_equiv};
ghost use Rattle.std.specs.Hash as fed;
ghost use Rattle.ob_prefixes.specs.Prefix.{same_prefix, folded, is_local, IsPrefixOf};
ghost use Rattle.ob_prefixes.specs.PrefixLaws.{same_prefix-equiv};
ghost use Rattle.ob_prefixes.specs.PrefixHash.{same_prefix-alike};

use ob_base::ObjId;
use smallvec::SmallVec;
use std::alloc::{AllocError, Global};
use std::hash::{Hash, Hasher};

/// The id of `\GLOBAL??`. (this profile)
const GLOBAL: ObjId = ObjId(2);

/// The components of a text before its last one, with the place from which they are walked, and whether the
/// case of their letters counts there. The view of the DOS device names is known by its local directory: its global one
/// is the same for every process. Up to 64 bytes lie in the value itself. (this profile)
#[derive(Drop)]
pub struct Prefix {
    /// The directory from which they are walked, or the local directory of the view.
    place: ObjId,
    /// Whether they are walked from the view.
    in_view: bool,
    /// Whether `a` to `z` are equal to `A` to `Z`.
    fold: bool,
    /// The text after the first separator: with `fold`, with `a` to `z` taken to `A` to `Z`.
    bytes: SmallVec<u8, 64>,
}

impl Prefix {
    /// The prefix with these bytes after its first separator, walked from a directory; with `in_view` from the view whose
    /// local directory this is. The only error is out of memory, which up to 64 bytes don't take. (this profile)
    pub fn new(
        alloc: Global,
        place: ObjId,
        in_view: bool,
        bytes: &[u8],
        fold: bool,
    ) -> Result<Prefix, AllocError>
        ensures prefix { IfOk result (λ prefix. IsPrefixOf place in_view fold bytes.now prefix) }
        ensures no_memory { length bytes.now ≤ 64 → IsOk result }
    {
        Ok(Prefix {
            place,
            in_view,
            fold,
            bytes: folded(alloc, bytes, fold)?,
        })
    }

    /// Whether it is walked from a view whose local directory is another than `\GLOBAL??`. (this profile)
    pub fn is_local(&self) -> bool
        ensures { result ≡ is_local self.now }
    {
        self.in_view && self.place != GLOBAL
    }
}

/// A copy of some bytes, with `a` to `z` taken to `A` to `Z` where the case of letters doesn't count. The only error is
/// out of memory, which up to 64 bytes don't take.
fn folded(alloc: Global, bytes: &[u8], fold: bool) -> Result<SmallVec<u8, 64>, AllocError>
    ensures bytes { IfOk result (λ copy. copy.items ≡ folded fold bytes.now) }
    ensures no_memory { length bytes.now ≤ 64 → IsOk result }
{
    let mut copy = SmallVec::from_slice(alloc, bytes)?;
    if fold {
        copy.as_mut_slice().make_ascii_uppercase();
    }
    Ok(copy)
}

impl PartialEq for Prefix {
    ghost eq = { same_prefix };

    ghost laws = { partial_equiv_from_equiv same_prefix-equiv };

    fn eq(&self, other: &Prefix) -> bool {
        self.place == other.place
            && self.in_view == other.in_view
            && self.fold == other.fold
            && self.bytes == other.bytes
    }
}

impl Eq for Prefix {
    ghost laws = { same_prefix-equiv };
}

impl Hash for Prefix {
    ghost hash_input = { λ prefix. fed.u64 prefix.place ++ prefix.bytes.items ∷ [] };

    ghost respects_eq = { same_prefix-alike };

    fn hash<H: Hasher>(&self, state: &mut H) {
        self.place.hash(state);
        // in one write, which the hasher takes by sixteen bytes at a time
        state.write(self.bytes.as_slice());
    }
}
