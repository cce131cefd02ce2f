//! What a client asks of a brick by datagram, and what it is answered.

ghost use Rattle.std.specs.Prelude.{◌≡◌};
ghost use Rattle.fab_base.specs.Asks.{bytes_by};
ghost use Rattle.messages.specs.Clients.{client_op, block_named, client_ask, op_of_client, ask_of_client};

use fab_base::{Answer, Ask, Bytes, GroupId, Op, Refusal, StripeNo};
use std::alloc::Global;

/// What a client's invocation does: it reads or writes one data block, or all data blocks of the stripe.
#[derive(Clone, Copy, PartialEq, Eq)]
pub enum ClientOp {
    ReadBlock,
    WriteBlock,
    ReadStripe,
    WriteStripe,
}

/// A client's invocation, with each field of its datagram: a read carries bytes too, and an operation on a stripe the number
/// of a block, which are given and ignored.
#[derive(Drop)]
pub struct ClientAsk {
    /// The client's own number for it, which the answer carries.
    pub id: u64,
    pub group: GroupId,
    pub stripe: StripeNo,
    pub op: ClientOp,
    /// The data block of an operation on a block.
    pub block: u8,
    /// What a write writes.
    pub bytes: Bytes,
}

/// What an operation does.
fn client_op(op: &Op) -> ClientOp
    ensures { result ≡ client_op op.now }
{
    match op {
        Op::ReadBlock(_) => ClientOp::ReadBlock,
        Op::WriteBlock(_, _) => ClientOp::WriteBlock,
        Op::ReadStripe => ClientOp::ReadStripe,
        Op::WriteStripe(_) => ClientOp::WriteStripe,
    }
}

/// The data block that an operation is on, 0 for one on a stripe.
fn block_named(op: &Op) -> u8
    ensures { result ≡ block_named op.now }
{
    match op {
        Op::ReadBlock(block) | Op::WriteBlock(block, _) => *block,
        Op::ReadStripe | Op::WriteStripe(_) => 0,
    }
}

/// The bytes that an operation writes, none for a read.
fn bytes_by(alloc: Global, op: Op) -> Bytes
    ensures { result ≡ bytes_by op }
{
    match op {
        Op::WriteBlock(_, bytes) | Op::WriteStripe(bytes) => bytes,
        Op::ReadBlock(_) | Op::ReadStripe => Bytes::empty(alloc),
    }
}

/// The operation of a kind, with a data block and bytes.
fn op_of_client(op: ClientOp, block: u8, bytes: Bytes) -> Op
    ensures { result ≡ op_of_client op block bytes }
{
    match op {
        ClientOp::ReadBlock => Op::ReadBlock(block),
        ClientOp::WriteBlock => Op::WriteBlock(block, bytes),
        ClientOp::ReadStripe => Op::ReadStripe,
        ClientOp::WriteStripe => Op::WriteStripe(bytes),
    }
}

impl ClientAsk {
    /// The invocation of this number for an operation.
    pub fn new(alloc: Global, id: u64, ask: Ask) -> ClientAsk
        ensures value { result ≡ client_ask id ask }
        // Who reads it asks for that very operation.
        ensures back { ask_of_client result ≡ ask }
    {
        let Ask { group, stripe, op } = ask;
        ClientAsk {
            id,
            group,
            stripe,
            op: client_op(&op),
            block: block_named(&op),
            bytes: bytes_by(alloc, op),
        }
    }

    /// The operation that it asks for.
    pub fn into_ask(self) -> Ask
        ensures { result ≡ ask_of_client self }
    {
        let ClientAsk {
            id: _,
            group,
            stripe,
            op,
            block,
            bytes,
        } = self;
        Ask {
            group,
            stripe,
            op: op_of_client(op, block, bytes),
        }
    }
}

/// The answer to a client's invocation.
#[derive(Drop)]
pub enum ClientAnswer {
    /// The operation ended.
    Ended(Answer),
    /// The operation was not begun. `Refusal::Down` is never sent, since a brick that is down sends
    /// nothing, nor `Refusal::NoQuorum`, since no client names bricks.
    Refused(Refusal),
}
