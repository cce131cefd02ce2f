//! The entries of a walk along a stripe's versions.

use fab_base::Stamp;

/// An operation that happened, by the version that it made or read.
///
/// Entries compare by stamp, then a version's maker before its readers, then by operation: sorted, they are a walk along a
/// stripe's versions.
#[derive(Clone, Copy, PartialEq, Eq, PartialOrd, Ord)]
pub struct Entry {
    /// The version's stamp.
    pub stamp: Stamp,
    /// Whether the operation read the version; else it made it, by a write or by a read that wrote back what it recovered.
    pub reader: bool,
    /// The operation's number.
    pub operation: u64,
}
