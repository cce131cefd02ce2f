//! What a brick sends of itself.

ghost use Rattle.std.specs.Prelude.{◌≡◌, ◌≤◌, [], length, vec_len, vec_capacity};
ghost use Rattle.node.specs.Sending.{answer_messages, collect_messages};
ghost use Rattle.node.specs.Decisions.{messages_in, Collects};

use fab_base::{BrickId, Stamp};
use layout::Group;
use messages::{Call, Message, Messages, Next};
use std::alloc::Global;

/// The messages that are sent; none where nothing is.
pub(crate) fn messages_in(alloc: Global, next: Next) -> Messages
    ensures { result.items ≡ messages_in next }
{
    match next {
        Next::Send(messages) => messages,
        Next::Wait | Next::End(_) | Next::Recover(_) => Vec::new(alloc),
    }
}

/// The messages that let all members collect what is below a version, in room that was made for them.
pub(crate) fn put_collects(
    mut room: Messages,
    group: &Group,
    call: Call,
    stored: Option<Stamp>,
) -> Messages
    requires empty { room.items ≡ [] }
    requires room { Collects stored (length group.now.members ≤ vec_capacity room) }
    ensures items { result.items ≡ collect_messages call stored group.now.members }
{
    let Some(stamp) = stored else {
        return room;
    };
    for member in group.members().as_slice() {
        room.push_reserved((*member, collector::after_done(call, stamp)));
    }
    room
}

/// The answer to a message's sender, if there is one, in room that was made for it.
pub(crate) fn answer_messages(mut room: Messages, to: BrickId, answer: Option<Message>) -> Messages
    requires empty { room.items ≡ [] }
    requires room { 1 ≤ vec_capacity room }
    ensures items { result.items ≡ answer_messages to answer }
    ensures few { vec_len result ≤ 1 }
{
    if let Some(answer) = answer {
        room.push_reserved((to, answer));
    }
    room
}
