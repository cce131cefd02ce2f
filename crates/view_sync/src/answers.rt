//! How a read of a synchronisation ends, and what follows it.

use fab_base::{Cause, StripeNo};
pub use protocol::SyncAnswer;

/// How a read of a stripe ended.
#[derive(Clone, Copy)]
pub enum JobEnd {
    /// It was answered: the stripe is kept in the view.
    Answered,
    /// It was aborted.
    Aborted(Cause),
    /// It did not begin: its brick had no later time or no further call number for it.
    Spent,
}

/// What a synchronisation does next.
#[derive(Clone, Copy)]
pub enum JobNext {
    /// It reads this stripe in its view.
    Read(StripeNo),
    /// It ends.
    End(SyncAnswer),
}
