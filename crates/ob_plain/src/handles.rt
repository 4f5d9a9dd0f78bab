//! The number of handles that are open to an object.

ghost use Rattle.std.specs.Prelude.{◌≡◌};
ghost use Rattle.ob_plain.specs.Handles.{one_more, unopened};

use std::marker::Model;

/// The number of handles that are open to an object; at the greatest u32, that many or more. A contract sees a
/// `HandleCount` as that number. (this profile)
#[derive(Debug, Drop)]
pub struct HandleCount {
    number: u32,
}

impl Model for HandleCount {
    ghost use Rattle.std.specs.Prelude.{ℕ};

    ghost Value = { ℕ };

    ghost view = { λ count. count.number };
}

impl HandleCount {
    /// The count of an object that wasn't opened yet: no handle.
    pub fn new() -> HandleCount
        ensures { result ≡ unopened }
    {
        HandleCount { number: 0 }
    }

    /// The number of handles.
    pub fn number(&self) -> u32
        ensures { result ≡ self.now }
    {
        self.number
    }

    /// Counts one handle more, up to the greatest u32.
    pub fn add_handle(&mut self)
        ensures { self.new ≡ one_more self.old }
    {
        self.number = self.number.saturating_add(1);
    }

    /// Sets the number to the handles that are left.
    pub fn set_handles(&mut self, left: u32)
        ensures { self.new ≡ left }
    {
        self.number = left;
    }
}
