//! How many members make a quorum, and the count of a phase's replies by seat.
//!
//! Two quorums of one view share at least as many seats as a stripe has data blocks, so what one quorum has stored
//! the next can decode (the m-quorums of Frølund et al., "A Decentralized Algorithm for Erasure-Coded Virtual Disks",
//! DSN 2004).
#![tactic(auto)]

pub mod memberships;
pub mod policies;
mod seat_lists;
pub mod seats;
pub mod tallies;

pub use memberships::{are_distinct, is_membership, memberships_have_quorums};
pub use policies::{Policy, quorums_meet};
pub use seats::Seat;
pub use tallies::Tally;
