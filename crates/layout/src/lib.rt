//! The layout of a disk: its bricks, its groups of stripes, and the text that says so.
#![tactic(auto)]

mod document_checks;
pub mod faults;
pub mod groups;
pub mod layouts;
pub mod places;
mod runs;
mod tables;
pub mod texts;
mod volume_tables;
pub mod volumes;

pub use faults::{FieldName, Key, KeyText, LayoutFault};
pub use groups::Group;
pub use layouts::Layout;
pub use places::Place;
pub use volumes::Volume;
