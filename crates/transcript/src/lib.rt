//! The text that a run of the disk prints, as anyone may claim it: what each line says, and what the lines say together.
//!
//! Each line has one spelling: single spaces, no leading zeros, lower-case hex. So the marks and the happenings that a text was printed
//! from are determined by its bytes.
#![tactic(auto)]

mod claims;
mod forms;
mod happening_lists;
mod marks;
mod readings;
mod tokens;
mod transcripts;
mod words;

pub use claims::{ClaimedStamp, Counts, Entry, ParsedAnswer, ParsedCause, ParsedMark, StripeLine};
pub use forms::{LINE_LIMIT, parse};
pub use happening_lists::HappeningList;
pub use readings::{MOST_LINES, Text, read};
pub use transcripts::Transcript;
