//! Messages, and messages under way.

use crate::calls::Call;
use crate::clients::{ClientAnswer, ClientAsk};
use crate::replies::Reply;
use crate::requests::Request;
use fab_base::{Boxed, BrickId, GroupId, View, ViewNo};

/// A message.
#[derive(Drop)]
pub enum Message {
    /// A coordinator's request.
    Request(Call, Request),
    /// A member's reply, with the call of the request.
    Reply(Call, Reply),
    /// This view of the group was decided.
    Learn { group: GroupId, view: Boxed<View> },
    /// Each stripe of the group has a version in this view.
    Synced { group: GroupId, view: ViewNo },
    /// A client's invocation.
    Client(ClientAsk),
    /// The answer to the invocation that the client gave this number.
    ClientReply { id: u64, answer: ClientAnswer },
}

/// A message from one brick to another, or to itself.
#[derive(Drop)]
pub struct Packet {
    pub from: BrickId,
    pub to: BrickId,
    pub message: Message,
}
