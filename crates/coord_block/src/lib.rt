//! The coordinator of an operation on one data block (Frølund et al., "A Decentralized Algorithm for Erasure-Coded Virtual Disks", DSN
//! 2004, read-block and write-block).
//!
//! A read is answered at once where a quorum tells one newest version, and no order above it, and the block's seat is among them; else
//! its stripe is to be recovered. A write orders its stamp at a quorum. Where all of them find one version, and the block's seat is among
//! them, each member modifies that version; else the stripe is to be recovered. Where a member had another version meanwhile, the version
//! that was to be modified is read back, and the stripe is to be stored whole, with the block replaced.
#![tactic(auto)]

pub mod block_ops;

pub use block_ops::{Block, BlockOp};
