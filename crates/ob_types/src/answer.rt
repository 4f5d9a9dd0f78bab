//! The answers of a parse procedure.

use ob_names::NameBuf;

/// The answer of a parse procedure to the rest of a name (Windows Internals, Object Manager: parse
/// methods; the forms of the answer: this profile). `F` and `I` are the face and the inner value of an object.
/// Contracts see it as `ob_model`'s answer of the same name.
#[derive(Debug, Drop)]
pub enum ParseAnswer<F, I> {
    /// The object itself is what was named; this is answered to the empty rest alone.
    Itself,
    /// A front of the rest leads to a new instance; what follows it is for the parse procedure of that one.
    Front {
        /// The bytes of the rest that were used: at least one where the rest isn't empty, and at most all.
        used: usize,
        /// The face of the instance. Where bytes are left, its kind parses.
        next: F,
        /// Its inner value, which counts no open handle.
        inner: I,
    },
    /// The name is to be looked up again, as this absolute name.
    Reparse(NameBuf),
    /// The name is refused, with a number from 0 to 65,535 of the type's own.
    Refused(u16),
}
