//! The turns of a game.

use ob_flat_model::Ask;

/// A turn: a process asks for something, or an open that waits, at a place among those that do, is ended or given
/// up.
#[derive(Clone, Copy)]
pub(crate) enum Turn {
    Start(u32, Ask),
    End(usize),
    Drop(usize),
}
