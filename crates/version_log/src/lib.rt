//! The versions that a brick keeps of one stripe in one view (Frølund et al., "A Decentralized Algorithm for
//! Erasure-Coded Virtual Disks", DSN 2004: the log of a process).
#![tactic(auto)]

pub mod logs;
pub mod versions;

pub use logs::VersionLog;
pub use versions::Version;
