//! The records.

use stamp_store::{Kept, Logged};

/// A record of a brick's store.
#[derive(Drop)]
pub enum Record {
    /// A boot count, a view, ballots or an order stamp.
    Kept(Kept),
    /// A change of a log.
    Logged(Logged),
}
