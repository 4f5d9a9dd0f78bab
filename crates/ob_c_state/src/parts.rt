//! A `Box` with its fields in sight of the module beside.
ghost use Rattle.std.specs.Prelude.{◌≡◌};
ghost use Rattle.std.specs.Box.Ownership.{box_owns};

use std::alloc::Allocator;
use std::marker::Model;

/// The parts of a `Box`: the pointer to its block, and the allocator that the block is of. It owns the block, and isn't
/// dropped: it becomes a box again, or is taken apart, and whoever takes its fields then owns the block.
///
/// A contract sees the block's value. (this profile)
pub struct Parts<T, A: Allocator> {
    /// Where the block begins.
    pub(crate) ptr: *mut T,
    /// The allocator that frees the block.
    pub(crate) alloc: A,
    /// The block's value.
    pub ghost value: { T },
}

impl<T, A: Allocator> Model for Parts<T, A> {
    ghost also_owns = { λ p. box_owns (A.dealloc_token p.alloc) T.row p.ptr p.value };
}

impl<T, A: Allocator> Parts<T, A> {
    /// Takes a box apart. Its value stays where it is, and no memory is taken or freed.
    pub fn of(b: Box<T, A>) -> Parts<T, A>
    where
        T: Drop,
        ensures { result.value ≡ b.value }
    {
        let (ptr, alloc) = Box::into_raw_with_allocator(b);
        Parts { ptr, alloc }
    }

    /// The box again, of the same block. No memory is taken.
    pub fn into_box(self) -> Box<T, A>
        ensures { result.value ≡ self.value }
    {
        let Parts { ptr, alloc } = self;
        unsafe { Box::from_raw(alloc, ptr) }
    }
}
