//! How the start of a command ends.

use ob_model::Reply;
use ob_types::{Parsing, TypeSet};

/// How the start of a command ends, and how a pending open that is resumed does. A parse that is to be run can't be
/// dropped.
pub enum Started<T: TypeSet> {
    /// The command is done, and this is its reply.
    Done(Reply),
    /// An open reached an object whose kind parses. It is pending under the ticket of this parse, which its caller
    /// is to run, and then to bring, or to give up.
    ///
    /// Source: Windows Internals, Object Manager (parse methods); that the parse is run between two steps is this
    /// profile.
    Parsing(Parsing<T>),
}
