//! The facts that decide whether an object stays.

ghost use Rattle.std.specs.Prelude.{◌≡◌, ◌&&◌};
ghost use Rattle.std.specs.Option.{is_some};

use crate::EntryPlace;

/// The facts that decide whether an object stays where no handle to it is left, as a store gives it at once.
///
/// Source: Windows Internals, Object Manager (object retention; temporary and permanent objects); the stamps are this
/// profile.
#[derive(Clone, Copy, Debug)]
pub struct Standing {
    /// Whether the object is there and is permanent.
    pub permanent: bool,
    /// Whether a name lies in it.
    pub holds_names: bool,
    /// Where its name is; `None` exactly where no name is for it.
    pub place: Option<EntryPlace>,
}

impl Standing {
    /// Whether the object is permanent and has a name, so that it stays without a handle. Takes no memory.
    ///
    /// Source: Windows Internals, Object Manager (temporary and permanent objects).
    pub fn stays_by_name(&self) -> bool
        ensures { result ≡ (self.now.permanent && is_some self.now.place) }
    {
        self.permanent && self.place.is_some()
    }
}
