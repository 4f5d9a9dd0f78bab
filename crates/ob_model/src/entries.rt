//! The entries that a page of a directory shows.

ghost use Rattle.std.specs.Prelude.{◌≡◌, ◌==◌};
ghost use Rattle.std.specs.Cmp.Lexicographic.{pointwise};
ghost use Rattle.std.specs.Cmp.Rules.{comparing};
ghost use Rattle.std.proofs.Common.{rules};

use crate::Bytes;
use std::alloc::AllocError;
use std::marker::Model;

/// The name of a type, as the set of types gives it: it is shared with the program, so that giving it
/// takes no memory. Contracts see a `TypeName` as the list of its bytes.
#[derive(Clone, Debug, Drop)]
pub struct TypeName {
    text: &'static str,
}

impl Model for TypeName {
    ghost use Rattle.std.specs.Prelude.{List, ℕ};

    ghost Value = { List ℕ };

    ghost view = { λ t. t.text.now };
}

impl PartialEq for TypeName {
    ghost eq = { pointwise ◌==◌ };

    ghost laws = { Prim.search (comparing, rules) };

    fn eq(&self, other: &TypeName) -> bool {
        self.text == other.text
    }
}

impl Eq for TypeName {
    ghost laws = { Prim.search (comparing, rules) };
}

impl TypeName {
    /// The name that is this text. Takes no memory.
    pub fn new(text: &'static str) -> Self
        ensures { result ≡ text.now }
    {
        TypeName { text }
    }

    /// The text. Takes no memory.
    pub fn as_str(&self) -> &'static str
        ensures { result.now ≡ self.now }
    {
        self.text
    }
}

/// One entry of a directory as a page shows it (ZwQueryDirectoryObject, Windows Driver Kit: a name and the
/// name of a type).
#[derive(Clone, PartialEq, Eq, Debug, Drop)]
pub struct Listed {
    /// The name, in the spelling that it was inserted with.
    pub name: Bytes,
    /// The name of the type of the object that it names.
    pub type_name: TypeName,
}

/// The entries of a page, by rising stamps. Contracts see them as a list.
#[derive(Debug, Drop)]
pub struct Entries {
    items: Vec<Listed>,
}

impl Model for Entries {
    ghost use Rattle.std.specs.Prelude.{List};
    ghost use Rattle.ob_model.specs.declared.entries.Listed.{Listed};

    ghost Value = { List Listed };

    ghost view = { λ e. e.items.items };
}

impl Clone for Entries {
    ghost is_clone = { λ items copy. copy ≡ items };

    fn clone(&self) -> Result<Entries, AllocError> {
        let items = self.items.clone()?;
        Ok(Entries { items })
    }
}

impl PartialEq for Entries {
    ghost eq = { pointwise ⟦<Listed as PartialEq>⟧.eq };

    ghost laws = { Prim.search (comparing, rules) };

    fn eq(&self, other: &Entries) -> bool {
        self.items == other.items
    }
}

impl Eq for Entries {
    ghost laws = { Prim.search (comparing, rules) };
}

impl Entries {
    /// The entries of a vector, which is taken as it is: no memory is taken.
    pub fn new(items: Vec<Listed>) -> Self
        ensures { result ≡ items.items }
    {
        Entries { items }
    }

    /// The entries, as a slice.
    pub fn as_slice(&self) -> &[Listed]
        ensures { result.now ≡ self.now }
    {
        self.items.as_slice()
    }
}
