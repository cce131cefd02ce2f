//! What bricks and clients say to each other, and what the coordinator of an operation answers to its brick.
//!
//! The requests and replies are those of the storage protocol of Frølund et al., "A Decentralized Algorithm for
//! Erasure-Coded Virtual Disks" (DSN 2004), with views and their agreement after Saito et al. (ASPLOS 2004).
#![tactic(auto)]

pub mod calls;
pub mod clients;
pub mod packets;
pub mod replies;
pub mod requests;
pub mod turns;

pub use calls::Call;
pub use clients::{ClientAnswer, ClientAsk, ClientOp};
pub use packets::{Message, Packet};
pub use replies::{Choice, Lineage, Reply};
pub use requests::{Look, Request, Version, Want};
pub use turns::{Messages, Next, Turn};
