//! Runs of stripes.

use crate::identities::{GroupId, StripeNo};

/// Stripes of one group that follow each other: what a volume is made of.
#[derive(Clone, Copy, PartialEq, Eq)]
pub struct Segment {
    /// The group.
    pub group: GroupId,
    /// The first of the stripes.
    pub first: StripeNo,
    /// How many stripes there are.
    pub stripes: u32,
}
