//! What a client may ask of a brick.

ghost use Rattle.std.specs.Prelude.{◌≡◌, IfOk};

use crate::block_bytes::Bytes;
use crate::faults::NoMem;
use crate::identities::{GroupId, StripeNo};
use std::alloc::Global;

/// An operation on a stripe of m data blocks.
#[derive(Drop)]
pub enum Op {
    /// Read data block j, below m.
    ReadBlock(u8),
    /// Write data block j, below m: one block of bytes.
    WriteBlock(u8, Bytes),
    /// Read all m data blocks, in order.
    ReadStripe,
    /// Write all m data blocks: m blocks of bytes, in order.
    WriteStripe(Bytes),
}

impl Op {
    /// An equal value.
    pub fn copy(&self, alloc: Global) -> Result<Op, NoMem>
        ensures { IfOk result (λ made. made ≡ self.now) }
    {
        match self {
            Op::ReadBlock(block) => Ok(Op::ReadBlock(*block)),
            Op::WriteBlock(block, bytes) => Ok(Op::WriteBlock(*block, bytes.copy(alloc)?)),
            Op::ReadStripe => Ok(Op::ReadStripe),
            Op::WriteStripe(bytes) => Ok(Op::WriteStripe(bytes.copy(alloc)?)),
        }
    }
}

/// An operation on one stripe of one group.
#[derive(Drop)]
pub struct Ask {
    /// The group.
    pub group: GroupId,
    /// The stripe within the group.
    pub stripe: StripeNo,
    /// The operation.
    pub op: Op,
}

impl Ask {
    /// An equal value.
    pub fn copy(&self, alloc: Global) -> Result<Ask, NoMem>
        ensures { IfOk result (λ made. made ≡ self.now) }
    {
        let op = self.op.copy(alloc)?;
        Ok(Ask {
            group: self.group,
            stripe: self.stripe,
            op,
        })
    }
}
