//! A process's view of the DOS device names.

use ob_base::ObjId;

/// The directories that `\??` means: the first component after it is searched for in the local
/// one, and where it isn't found there, in the global one.
///
/// Source: Windows Internals, Object Manager (session namespace: DOS device names, device maps).
#[derive(Clone, Copy, PartialEq, Eq, Debug)]
pub struct View {
    /// The directory of the process's device map, where it has one.
    pub local: Option<ObjId>,
    /// The directory `\GLOBAL??`.
    pub global: ObjId,
}
