//! The state of a begun open.

use ob_model::Reply;

/// The state of an open after it was begun, or after its parse was run.
#[derive(Drop)]
pub enum Begun {
    /// The open was answered, and this is its reply. So is every command that isn't an open.
    Replied(Reply),
    /// The open waits for a parse, under this ticket: from 1 to 2^64 - 2.
    ///
    /// Source: Windows Internals, Object Manager (parse methods); that a parse is run between two steps, and the
    /// ticket, are this profile.
    Waits(u64),
}
