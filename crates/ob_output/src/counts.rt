//! Counts of a namespace.

/// The counts of a namespace, as `stat` prints them. (this profile)
#[derive(Clone, Copy, PartialEq, Eq, Debug)]
pub struct Totals {
    /// The objects that there are.
    pub objects: usize,
    /// The handles of all processes.
    pub handles: usize,
    /// The opens that the set of types accepted since the start.
    pub opens: u64,
    /// The closes that the set of types was called for since the start.
    pub closes: u64,
    /// The deletes that the set of types was called for since the start.
    pub deletes: u64,
}
