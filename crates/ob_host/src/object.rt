//! A caller's own objects.

ghost use Rattle.std.specs.Prelude.{◌≡◌, IfOk};
ghost use Rattle.ob_host.specs.Objects.{object_below, text_below};

use crate::Kind;
use ob_model::Bytes;
use std::alloc::{AllocError, Global};

/// A caller's own object, as the caller knows it, which never changes. (this profile)
#[derive(Clone, PartialEq, Eq, Debug, Drop)]
pub struct HostObject {
    /// Its kind.
    pub kind: Kind,
    /// The caller's user data: that of its arguments, or of the object whose parse made it.
    pub user_data: u64,
    /// The bytes after the user data in its arguments; where a parse made it, the text of the object whose parse
    /// that was and the rest of the name after that object.
    pub text: Bytes,
}

impl HostObject {
    /// The object of a kind that the rest of a name leads to from this one. The only error is out of memory.
    pub(crate) fn below(
        &self,
        alloc: Global,
        kind: Kind,
        rest: &[u8],
    ) -> Result<HostObject, AllocError>
        ensures { IfOk result (λ object. object ≡ object_below self.now kind rest.now) }
    {
        Ok(HostObject {
            kind,
            user_data: self.user_data,
            text: text_below(alloc, self.text.as_slice(), rest)?,
        })
    }
}

// A text and the rest of a name after it, with a backslash between them where there is a text and the rest
// doesn't begin with one.
fn text_below(alloc: Global, text: &[u8], rest: &[u8]) -> Result<Bytes, AllocError>
    ensures { IfOk result (λ bytes. bytes ≡ text_below text.now rest.now) }
{
    let mut bytes = text.to_vec(alloc)?;
    if !text.is_empty() && !rest.starts_with(b"\\") {
        bytes.push(b'\\')?;
    }
    bytes.extend_from_slice(rest)?;
    Ok(Bytes::new(bytes))
}
