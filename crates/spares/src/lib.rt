//! Spares: each brick suspects bricks that it thinks are gone, rightly or not, and the suspected members of a view are replaced from a
//! pool of bricks that the layout names (Saito et al., "FAB: Building Distributed Enterprise Disk Arrays from Commodity Components",
//! ASPLOS 2004, section 5).
//!
//! Nothing here decides a view: what `Spares::list` gives is proposed as any other list of members.
#![tactic(auto)]

pub mod suspicions;

pub use suspicions::Spares;
