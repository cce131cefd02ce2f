//! The life of an operation: its Begin and what becomes of it, found in the marks.

ghost use Rattle.std.specs.Prelude.{◌≡◌, ◌+◌, ◌≤◌, ◌↔◌, IsTrue, Some, option_map};
ghost use Rattle.reg_model.specs.Marks.{life_of, ending_of, end_of, IsUnended};
ghost use Rattle.reg_model.specs.Strict.{IsAnswered};
ghost use Rattle.reg_model.specs.Lives.{life_shown, ending_shown};

use crate::marks::Mark;
use fab_base::{Answer, Ask, BrickId};

/// What becomes of an operation after its Begin.
#[derive(Clone, Copy)]
pub enum Ending<'a> {
    /// It is answered.
    Answered {
        /// The position of its End.
        position: u64,
        /// The answer.
        answer: &'a Answer,
    },
    /// Its brick stops before it is answered.
    Interrupted {
        /// The position of the Crash.
        position: u64,
    },
    /// It is still open after the last mark.
    Unended {
        /// The position of the last mark.
        last: u64,
    },
}

impl<'a> Ending<'a> {
    /// What becomes of an operation of this brick, by the marks after its Begin.
    pub fn find(later: &'a [Mark], operation: u64, brick: BrickId, begin: u64) -> Ending<'a>
        ensures { ending_shown result ≡ ending_of later.now operation brick.0 (begin + 1) }
    {
        let mut last = begin;
        for mark in later {
            match mark {
                Mark::End {
                    position,
                    operation: ended,
                    answer,
                } if *ended == operation => {
                    return Ending::Answered {
                        position: *position,
                        answer,
                    };
                }
                Mark::Crash {
                    position,
                    brick: stopped,
                } if stopped.0 == brick.0 => {
                    return Ending::Interrupted {
                        position: *position,
                    };
                }
                _ => last = mark.position(),
            }
        }
        Ending::Unended { last }
    }

    /// Whether the operation may happen as late as at this position. One that is still open may happen as late as one past
    /// the last mark.
    pub fn reaches(&self, position: u64) -> bool
        ensures { IsTrue result ↔ (position ≤ end_of (ending_shown self.now)) }
    {
        match self {
            Ending::Answered { position: end, .. } => position <= *end,
            Ending::Interrupted { position: end } => position <= *end,
            Ending::Unended { last } => position.saturating_sub(1) <= *last,
        }
    }

    /// Whether the operation is still open after the last mark.
    pub fn is_unended(&self) -> bool
        ensures { IsTrue result ↔ IsUnended (ending_shown self.now) }
    {
        matches!(self, Ending::Unended { .. })
    }

    /// Whether the operation was answered by data or as done.
    pub fn is_answered(&self) -> bool
        ensures { IsTrue result ↔ IsAnswered (ending_shown self.now) }
    {
        match self {
            Ending::Answered { answer, .. } => !matches!(answer, Answer::Aborted(_)),
            Ending::Interrupted { .. } | Ending::Unended { .. } => false,
        }
    }
}

/// An operation that has begun.
#[derive(Clone, Copy)]
pub struct Life<'a> {
    /// The position of its Begin.
    pub begin: u64,
    /// Its coordinator.
    pub brick: BrickId,
    /// What it asks.
    pub ask: &'a Ask,
    /// What becomes of it.
    pub ending: Ending<'a>,
}

impl<'a> Life<'a> {
    /// The life of an operation, by its first Begin, if it has begun.
    pub fn find(marks: &'a [Mark], wanted: u64) -> Option<Life<'a>>
        ensures { option_map life_shown result ≡ life_of marks.now wanted }
    {
        for (i, mark) in marks.iter().enumerate() {
            if let Mark::Begin {
                position,
                operation,
                brick,
                ask,
            } = mark
                && *operation == wanted
            {
                let (_, later) = marks.split_at(i + 1);
                return Some(Life {
                    begin: *position,
                    brick: *brick,
                    ask,
                    ending: Ending::find(later, wanted, *brick, *position),
                });
            }
        }
        None
    }
}
