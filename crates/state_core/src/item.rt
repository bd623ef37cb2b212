//! A patch set of a change.

/// An item: a patch set of a change. Items are ordered by change, then by patch set.
#[derive(Clone, Copy, Debug, PartialEq, Eq, PartialOrd, Ord)]
pub struct Item {
    /// The number of the change.
    pub change: u32,
    /// The number of the patch set.
    pub set: u32,
}
