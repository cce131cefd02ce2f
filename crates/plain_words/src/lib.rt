//! What clap reads of the words of a program, none of which begins with `-`.
#![tactic(auto)]

mod readings;

pub use readings::read_words;
