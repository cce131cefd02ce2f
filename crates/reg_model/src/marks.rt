//! Marks and happenings.

ghost use Rattle.std.specs.Prelude.{◌≡◌, ◌↔◌, IsTrue};

use crate::registers;
use fab_base::{Answer, Ask, BrickId};

/// One thing that was seen from outside: an operation begins, an operation is answered, or a brick stops.
///
/// A mark carries its position, its place in the list of all marks of a run, from 0.
#[derive(Drop)]
pub enum Mark {
    /// An operation begins at a brick, its coordinator.
    Begin {
        /// The mark's position.
        position: u64,
        /// The operation's number: operations are numbered 1, 2, .. by their Begins.
        operation: u64,
        /// The coordinator.
        brick: BrickId,
        /// What is asked, and of which stripe.
        ask: Ask,
    },
    /// An operation is answered.
    End {
        /// The mark's position.
        position: u64,
        /// The operation's number.
        operation: u64,
        /// The answer.
        answer: Answer,
    },
    /// A brick stops. The operations that it had open are interrupted.
    Crash {
        /// The mark's position.
        position: u64,
        /// The brick.
        brick: BrickId,
    },
}

impl Mark {
    ghost use Rattle.reg_model.specs.Marks.{position_of};
    ghost use Rattle.reg_model.specs.Strict.{MarkFits};

    /// The mark's place in the list of all marks.
    pub fn position(&self) -> u64
        ensures { result ≡ position_of self.now }
    {
        match self {
            Mark::Begin { position, .. } => *position,
            Mark::End { position, .. } => *position,
            Mark::Crash { position, .. } => *position,
        }
    }

    /// Whether an operation that begins fits a stripe of m data blocks of `block` bytes each: its data block is below m, and
    /// what it writes is one block, or m blocks.
    pub fn fits(&self, m: u8, block: usize) -> bool
        ensures { IsTrue result ↔ MarkFits m block self.now }
    {
        match self {
            Mark::Begin { ask, .. } => registers::fits(&ask.op, m, block),
            Mark::End { .. } | Mark::Crash { .. } => true,
        }
    }
}

/// That an operation happened, and where in the list of all marks: just after the mark of that position.
#[derive(Clone, Copy, PartialEq, Eq)]
pub struct Happening {
    /// The operation's number.
    pub operation: u64,
    /// The position.
    pub position: u64,
}
