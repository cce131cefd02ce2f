//! What a request comes to at a member.

use fab_base::{Bytes, Stamp};
use messages::Reply;

/// What a request comes to at a member, before it is kept.
#[derive(Drop)]
pub(crate) enum Plan {
    /// The request is ignored.
    Ignore,
    /// The member's part stays as it is.
    Tell(Reply),
    /// The member promises to take nothing below a stamp, and replies so.
    Promise(Stamp, Reply),
    /// The member stores a version: with this block, or with that of its newest one.
    Store(Stamp, Option<Bytes>),
    /// The member drops its versions below one that it has. There is no reply.
    Collect(Stamp),
}
