//! Handle values.

ghost use Rattle.std.specs.Prelude.{◌≡◌, ◌==◌};
ghost use Rattle.std.specs.Cmp.Lexicographic.{pointwise};
ghost use Rattle.std.specs.Cmp.Rules.{comparing};
ghost use Rattle.std.proofs.Common.{rules};

use ob_base::Handle;
use std::alloc::AllocError;
use std::marker::Model;

/// Handle values, in an order: those that a child inherited. Contracts see them as a list of numbers.
#[derive(Debug, Drop)]
pub struct Handles {
    items: Vec<Handle>,
}

impl Model for Handles {
    ghost use Rattle.std.specs.Prelude.{List, ℕ};

    ghost Value = { List ℕ };

    ghost view = { λ h. h.items.items };
}

impl Clone for Handles {
    ghost is_clone = { λ items copy. copy ≡ items };

    fn clone(&self) -> Result<Handles, AllocError> {
        let items = self.items.clone()?;
        Ok(Handles { items })
    }
}

impl PartialEq for Handles {
    ghost eq = { pointwise ◌==◌ };

    ghost laws = { Prim.search (comparing, rules) };

    fn eq(&self, other: &Handles) -> bool {
        self.items == other.items
    }
}

impl Eq for Handles {
    ghost laws = { Prim.search (comparing, rules) };
}

impl Handles {
    /// The values of a vector, which is taken as it is: no memory is taken.
    pub fn new(items: Vec<Handle>) -> Self
        ensures { result ≡ items.items }
    {
        Handles { items }
    }

    /// The values, as a slice.
    pub fn as_slice(&self) -> &[Handle]
        ensures { result.now ≡ self.now }
    {
        self.items.as_slice()
    }
}
