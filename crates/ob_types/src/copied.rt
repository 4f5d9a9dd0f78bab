//! Values that can be copied.

ghost use Rattle.std.specs.Prelude.{◌≡◌, IfOk};

use std::alloc::AllocError;

/// A type whose values can be copied. A namespace can be, where the value of its set of types can, and the inner values
/// of its objects. (this profile)
pub trait Copied: Sized + Drop {
    /// Another value, equal to this one. The only error is out of memory.
    fn copied(&self) -> Result<Self, AllocError>
        ensures { IfOk result (λ copy. copy ≡ self.now) };
}
