//! What a scrub does next, and how it ends.

use messages::Messages;
pub use protocol::ScrubAnswer;

/// What a scrub does next.
#[derive(Drop)]
pub enum ScrubNext {
    /// It sends these messages, with which its look begins, or is sent again.
    Send(Messages),
    /// It waits for more replies.
    Wait,
    /// Its members are kept apart: their stripe is to be recovered, beginning with the order.
    Recover,
    /// It ends.
    End(ScrubAnswer),
}
