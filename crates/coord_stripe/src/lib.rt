//! The coordinator of an operation on a whole stripe: a write orders its stamp at a quorum, and then stores its blocks; a read is
//! answered at once where a quorum tells one newest version, and no order above it, and else its stripe is to be recovered
//! (Frølund et al., "A Decentralized Algorithm for Erasure-Coded Virtual Disks", DSN 2004, write-stripe and read-stripe).
#![tactic(auto)]

pub mod stripe_ops;

pub use stripe_ops::{Stripe, StripeOp};
