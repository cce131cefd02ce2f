//! A picture of a run in SVG: time runs down, each brick has a line, messages are arrows, and operations are bars.
#![tactic(auto)]

mod drawing;
mod figures;
mod pictures;

pub use drawing::Drawing;
