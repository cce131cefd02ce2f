//! What the coordinator of an operation answers to its brick.

use crate::packets::Message;
use fab_base::{Answer, BrickId, Bytes, Stamp};

/// Messages to be sent, in this order, each with its receiver.
pub type Messages = Vec<(BrickId, Message)>;

/// Where the recovery of a stripe begins (Frølund 2004, recover and store-stripe).
#[derive(Drop)]
pub enum Turn {
    /// With the order: each member is to promise the operation's stamp, and to tell its newest version below it.
    Order,
    /// With the look for the greatest version below this stamp.
    Down(Stamp),
    /// With the store of the version `base` that was read back: `content` is the stripe's m data blocks.
    Store { base: Stamp, content: Bytes },
}

/// What an operation does next.
#[derive(Drop)]
pub enum Next {
    /// It sends these messages, with which a phase begins, or is sent again.
    Send(Messages),
    /// It waits for more replies.
    Wait,
    /// It ends.
    End(Answer),
    /// Its stripe is to be recovered, beginning so.
    Recover(Turn),
}
