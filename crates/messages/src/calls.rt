//! Which call and phase a request or reply belongs to.

use fab_base::{GroupId, StripeNo, ViewNo};

/// A phase of a call of one brick: a reply carries the call of the request that it answers.
#[derive(Clone, Copy, PartialEq, Eq)]
pub struct Call {
    /// How often the coordinator's store had been opened, from 1.
    pub boot: u32,
    /// The number of the call since that opening, from 1.
    pub seq: u64,
    /// The number of the phase within the call, from 1.
    pub phase: u32,
    pub group: GroupId,
    /// The view whose members are asked.
    pub view: ViewNo,
    /// The stripe; 0 where a view's successor is agreed on.
    pub stripe: StripeNo,
}
