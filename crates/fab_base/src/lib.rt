//! The plain values that bricks, coordinators and programs speak of: names of bricks, groups and stripes, stamps and
//! ballots, block bytes, lists of members, and what a client may ask and be answered.
//!
//! The values follow Saito et al., "FAB: Building Distributed Enterprise Disk Arrays from Commodity Components"
//! (ASPLOS 2004) and Frølund et al., "A Decentralized Algorithm for Erasure-Coded Virtual Disks" (DSN 2004).
#![tactic(auto)]

pub mod answers;
pub mod asks;
pub mod block_bytes;
pub mod boxes;
pub mod faults;
pub mod identities;
pub mod member_lists;
pub mod segments;
pub mod stamps;

pub use answers::{Answer, Cause, Refusal};
pub use asks::{Ask, Op};
pub use block_bytes::Bytes;
pub use boxes::Boxed;
pub use faults::{IoFault, NoMem};
pub use identities::{BrickId, CallId, GroupId, StripeNo, ViewNo};
pub use member_lists::{Members, View};
pub use segments::Segment;
pub use stamps::{Ballot, Stamp};
