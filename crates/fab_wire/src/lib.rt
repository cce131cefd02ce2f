//! The bytes of a message in a datagram.
#![tactic(auto)]

mod clients;
mod datagrams;
mod phases;
mod values;

pub use datagrams::{WireFault, decode, encode, read_ballot, read_call, read_stamp};
pub use messages::{
    Call, Choice, ClientAnswer, ClientAsk, ClientOp, Lineage, Look, Message, Messages, Next,
    Packet, Reply, Request, Turn, Version, Want,
};
