//! What it means that a stripe's blocks are plain registers: the marks that a run of the disk prints, the happenings that are
//! claimed for them, and a check of the one against the other.
//!
//! Nothing here knows of quorums, messages or stored blocks. The notion is strict linearizability (Aguilera and
//! Frølund, "Strict Linearizability and the Power of Aborting", 2003): an operation that was aborted, or whose coordinator
//! crashed, has happened by then or never happens.
//!
//! Operations may be given happenings in the order of the versions that they made or read: [`Entry`] is a step of such a walk along a
//! stripe's versions, and `specs/Walk` says how the steps are ordered and where they happen. `proofs/WalkFacts` says which facts on the
//! versions make these happenings strict, and `proofs/Bases` which versions may have been made on which: what a recovery or a write of
//! one block makes has a base, and of two neighbours the upper was made on the lower.
#![tactic(auto)]

pub mod checker;
pub mod entries;
mod lives;
pub mod marks;
mod registers;
pub mod strictness;
pub mod well_formed;

pub use checker::{all_fit, check};
pub use entries::Entry;
pub use marks::{Happening, Mark};
pub use strictness::is_strict;
pub use well_formed::is_well_formed;
