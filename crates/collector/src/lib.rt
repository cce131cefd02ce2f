//! What a coordinator sends once a version is stored, so that old versions are dropped (Frølund et al., "A Decentralized Algorithm for
//! Erasure-Coded Virtual Disks", DSN 2004, garbage collection).
#![tactic(auto)]

ghost use Rattle.std.specs.Prelude.{◌≡◌};
ghost use Rattle.messages.specs.declared.packets.Message.TheVariants as message;
ghost use Rattle.messages.specs.declared.requests.Request.TheVariants as request;

use fab_base::Stamp;
use messages::{Call, Message, Request};

/// The message that lets a member drop the versions of a call's stripe below one: the Collect of that stamp, with the call's last phase.
///
/// It is sent once a quorum has stored the version: from then on each look finds that version or a later one, and none below it is
/// needed. It goes to all members of the operation's view, after a read that recovered as after a write, whichever view the version that was read
/// back is of.
pub fn after_done(call: Call, stamp: Stamp) -> Message
    ensures { result ≡ message.Request call (request.Collect stamp) }
{
    Message::Request(call, Request::Collect { stamp })
}
