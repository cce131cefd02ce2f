//! The registers of a stripe, as bytes.

ghost use Rattle.std.specs.Prelude.{◌≡◌, ◌↔◌, IsTrue, Some};
ghost use Rattle.reg_model.specs.Registers.{after_op, read_of};
ghost use Rattle.reg_model.specs.Strict.{IsRead, OpFits};
ghost use Rattle.reg_model.specs.Fits.{FitsRegisters};

use fab_base::Op;

/// Whether the operation fits a stripe of m data blocks: its block is below m, and what it writes is one block, or m blocks.
pub fn fits(op: &Op, m: u8, block: usize) -> bool
    ensures { IsTrue result ↔ OpFits m block op.now }
{
    match op {
        Op::ReadBlock(j) => *j < m,
        Op::WriteBlock(j, bytes) => *j < m && bytes.len() == block,
        Op::ReadStripe => true,
        Op::WriteStripe(bytes) => usize::from(m).checked_mul(block) == Some(bytes.len()),
    }
}

/// Whether these bytes are what a read gives: the data block, or all of them. A write gives nothing that could differ.
pub fn reads(op: &Op, block: usize, registers: &[u8], bytes: &[u8]) -> bool
    requires { FitsRegisters block registers.now op.now }
    ensures { IsTrue result ↔ IsRead (read_of block op.now registers.now) (Some bytes.now) }
{
    match op {
        Op::ReadBlock(j) => {
            let start = usize::from(*j) * block;
            bytes == &registers[start..start + block]
        }
        Op::ReadStripe => bytes == registers,
        Op::WriteBlock(..) | Op::WriteStripe(_) => true,
    }
}

/// Changes the registers as the operation does.
pub fn apply(op: &Op, block: usize, registers: &mut [u8])
    requires { FitsRegisters block registers.old op.now }
    ensures { registers.new ≡ after_op block op.now registers.old }
{
    match op {
        Op::WriteBlock(j, bytes) => {
            let start = usize::from(*j) * block;
            registers[start..start + block].copy_from_slice(bytes.as_slice());
        }
        Op::WriteStripe(bytes) => registers.copy_from_slice(bytes.as_slice()),
        Op::ReadBlock(_) | Op::ReadStripe => {}
    }
}
