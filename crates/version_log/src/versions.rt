//! One version as it is kept.

use fab_base::Stamp;

/// A version: its stamp, and its block, or what is kept of it.
#[derive(Clone, Copy, Drop, PartialEq, Eq)]
pub struct Version<B> {
    /// The stamp.
    pub stamp: Stamp,
    /// The block, which later versions may share.
    pub block: B,
}
