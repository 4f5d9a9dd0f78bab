//! Names and places in a line.

use crate::handle::HandleForm;

/// A name in a line. `T` is how bytes are held: as slices of the line, or, in contracts, as lists.
#[derive(Clone, Copy, PartialEq, Eq, Debug)]
pub enum NameForm<T> {
    /// `TEXT`: the absolute name that the text spells.
    Absolute(T),
    /// `H:TEXT`: the name that the text spells, relative to the object of a handle.
    Relative {
        /// The handle.
        root: HandleForm<T>,
        /// The text that spells the name.
        text: T,
    },
}

/// Where a create puts what it makes. `T` is how bytes are held: as slices of the line, or, in
/// contracts, as lists.
#[derive(Clone, Copy, PartialEq, Eq, Debug)]
pub enum PlaceForm<T> {
    /// `NAME`: at this name.
    Named(NameForm<T>),
    /// `none`: nowhere, without a name.
    Unnamed,
}
