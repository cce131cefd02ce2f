//! How the members of a group's view agree on its successor: single-decree Paxos (Lamport, "Paxos Made Simple", ACM SIGACT News 2001) among the members of
//! the view, as FAB changes views (Saito et al., "FAB: Building Distributed Enterprise Disk Arrays from Commodity Components", ASPLOS 2004, section 5).
//!
//! A brick that wants a successor proposes a list of members under a ballot. It has a quorum of the members promise to the ballot, and then accept a list under
//! it: its own, or the one that some member accepted last.
#![tactic(auto)]

pub mod acceptors;
pub mod answers;
mod choices;
mod counting;
pub mod proposals;
pub mod proposers;
pub mod rounds;
pub mod votes;

pub use acceptors::Acceptor;
pub use answers::{ViewAnswer, ViewNext};
pub use proposals::Proposal;
pub use proposers::Proposer;
pub use rounds::Rounds;
pub use votes::Vote;
