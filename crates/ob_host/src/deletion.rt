//! Deletions of a caller's own objects.

use crate::Kind;
use ob_model::Bytes;

/// A deletion, as the caller knows the object that was deleted. (this profile)
#[derive(Clone, Debug, Drop)]
pub struct HostDeletion {
    /// Its kind.
    pub kind: Kind,
    /// The caller's user data: that of its arguments, or of the object whose parse made it.
    pub user_data: u64,
    /// Its text.
    pub text: Bytes,
    /// The serial that its first open drew; 0 where it was never opened.
    pub serial: u64,
    /// Whether a parse made it.
    pub parsed: bool,
}
