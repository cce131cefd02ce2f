//! The program `trace`: shows a run of a layout and a schedule, as text or as a picture.
#![tactic(auto)]

mod closings;
mod drawings;
mod notes;
mod pages;
mod programs;
mod schedules;
mod text_report;

pub use programs::trace;
