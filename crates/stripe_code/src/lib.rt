//! The code of the disk: what a member keeps of a stripe's content, how blocks of enough members give the content back, and
//! how a block changes with a data block (`encode`, `decode` and `modify` of Frølund et al., "A Decentralized Algorithm for
//! Erasure-Coded Virtual Disks", DSN 2004).
#![tactic(auto)]

mod blocks;
pub mod laws;

pub use blocks::{decode, delta, encode, modify, parity};
