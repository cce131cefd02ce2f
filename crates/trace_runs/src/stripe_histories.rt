//! What happened to stripes.

use crate::journals::Journal;
use fab_base::{GroupId, NoMem, StripeNo};
use reg_model::Happening;
use std::alloc::Global;
use world::World;

/// What happened to a stripe.
pub struct StripeHistory {
    /// The stripe's group.
    pub group: GroupId,
    /// Its number in that group.
    pub stripe: StripeNo,
    /// Its happenings, in order.
    pub happenings: Vec<Happening>,
}

impl Drop for StripeHistory {
    fn drop(self) {
        let Self {
            group: _,
            stripe: _,
            happenings: _,
        } = self;
    }
}

/// What happened to each stripe that an operation named, by group and number.
pub fn histories_of(
    alloc: Global,
    world: &World,
    journal: &Journal,
) -> Result<Vec<StripeHistory>, NoMem> {
    let entries = world.stripe_entries()?;
    let mut histories = Vec::new(alloc);
    for (group, stripe) in journal.stripes() {
        let (group, stripe) = (GroupId(*group), StripeNo(*stripe));
        histories.push(StripeHistory {
            group,
            stripe,
            happenings: world.happenings_among(&entries, group, stripe)?,
        })?;
    }
    Ok(histories)
}
