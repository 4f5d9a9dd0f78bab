//! Variables as tables keep them, and as they are looked for.

ghost use Rattle.std.specs.Prelude.{◌≡◌};

use indexmap::Equivalent;
use smallvec::SmallVec;

/// A variable that is kept. Up to 16 of its bytes lie in the value itself. (this profile)
pub type VariableName = SmallVec<u8, 16>;

// A variable that is looked for.
#[derive(Clone, Copy, PartialEq, Eq, Hash)]
pub(crate) struct Sought<'a> {
    // Its bytes.
    pub(crate) variable: &'a [u8],
}

impl Equivalent<VariableName> for Sought<'_> {
    ghost use Rattle.std.specs.Str.{bytes_eq};
    ghost use Rattle.std.specs.Cmp.Lexicographic.{bytes_decides, nat_list_eq_equiv};
    ghost use Rattle.std.specs.Hash as fed;
    ghost use Rattle.std.proofs.Common.{ap};

    ghost equivalent = { λ q k. bytes_eq q.variable.now k.items };

    ghost respects_hash = { λ q k h. ap (fed.slice fed.u8) ((bytes_decides q.variable.now k.items).0 h) };

    ghost respects_eq = { λ q x y. nat_list_eq_equiv.congr q.variable.now x.items y.items };

    fn equivalent(&self, key: &VariableName) -> bool {
        self.variable == key.as_slice()
    }
}
