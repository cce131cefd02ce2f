//! The session of one client over NBD: a state machine from the client's bytes, in any pieces, to what is sent, the commands that are
//! asked, and how the session ends.
//!
//! It follows the fixed newstyle handshake and the simple replies of the NBD protocol document
//! (<https://github.com/NetworkBlockDevice/nbd/blob/master/doc/proto.md>).
#![tactic(auto)]

mod answers;
mod fields;
mod parts;
mod replies;
pub mod sessions;
pub mod steps;

pub use sessions::Session;
pub use steps::{Command, End, Step};
