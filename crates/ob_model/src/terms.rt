//! In which way a name is looked up, a handle is granted, and an object is opened.

ghost use Rattle.std.specs.Prelude.{◌≡◌};
ghost use Rattle.ob_model.specs.Opens.{options_by};

use ob_base::Attrs;

/// How a name is looked up.
///
/// Source: OBJECT_ATTRIBUTES structure (OBJ_CASE_INSENSITIVE, OBJ_OPENLINK; Windows Driver Kit);
/// what a create does is this profile.
#[derive(Clone, Copy, PartialEq, Eq, Debug)]
pub struct Mode {
    /// Whether it is looked up to create an object of that name: then the last component may be
    /// vacant, and is not followed.
    pub create: bool,
    /// Whether `a` to `z` are equal to `A` to `Z` in it.
    pub fold: bool,
    /// Whether a link that the last component names is followed, where nothing is created.
    pub follow: bool,
}

/// The flags that are asked of a handle.
///
/// Source: OBJECT_ATTRIBUTES structure (OBJ_INHERIT, OBJ_EXCLUSIVE; Windows Driver Kit).
#[derive(Clone, Copy, PartialEq, Eq, Debug)]
pub struct GrantOptions {
    /// Whether children made with inheritance get it too.
    pub inherit: bool,
    /// Whether the object is to be an exclusive one.
    pub exclusive: bool,
}

impl GrantOptions {
    /// The part of a command's flags that concerns a handle.
    ///
    /// Source: OBJECT_ATTRIBUTES structure (OBJ_INHERIT, OBJ_EXCLUSIVE; Windows Driver Kit).
    pub fn by(attrs: Attrs) -> GrantOptions
        ensures { result ≡ options_by attrs }
    {
        GrantOptions {
            inherit: attrs.is_inherit(),
            exclusive: attrs.is_exclusive(),
        }
    }
}

/// Why a handle is opened, as an open procedure receives it.
///
/// Source: Windows Internals, Object Manager (object types and their methods).
#[derive(Clone, Copy, PartialEq, Eq, Debug)]
pub enum Reason {
    /// The object was made by the same request.
    Created,
    /// The object was there and was looked up.
    Opened,
    /// A handle to the object was duplicated.
    Duplicated,
    /// A process that came to be was given a handle of the one that made it.
    Inherited,
}
