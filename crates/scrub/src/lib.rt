//! The coordinator of a scrub: it looks for what some members keep of a stripe, says at once where they keep one version, and else who of them lags. Then the
//! stripe is to be recovered, until all of them have stored one version (Schwarz et al., "Disk Scrubbing in Large Archival Storage Systems", MASCOTS 2004; the
//! recovery is that of Frølund et al., "A Decentralized Algorithm for Erasure-Coded Virtual Disks", DSN 2004).
#![tactic(auto)]

pub mod answers;
pub mod scrubs;

pub use answers::{ScrubAnswer, ScrubNext};
pub use scrubs::Scrub;
