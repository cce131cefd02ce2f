//! What a proposal does next.

use messages::Messages;
pub use protocol::ViewAnswer;

/// What a proposal does next.
#[derive(Drop)]
pub enum ViewNext {
    /// It sends these messages, with which a phase begins, or is sent again.
    Send(Messages),
    /// It waits for more replies.
    Wait,
    /// It ends.
    End(ViewAnswer),
}
