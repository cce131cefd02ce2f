//! The words of the program `brick`: what they ask for.
#![tactic(auto)]

pub mod words;

pub use words::{Task, Words, Work, words_of};
