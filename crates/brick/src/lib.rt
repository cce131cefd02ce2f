//! The program `brick`, over a host that opens what it uses: `brick format` makes the store of a brick, `brick serve` has it serve, and
//! `brick local` runs commands over all bricks of a layout.
#![tactic(auto)]

mod commands;
mod endings;
mod formats;
mod layout_texts;
mod locals;
mod openings;
mod programs;
mod serves;

pub use programs::brick;
