//! How a run ends.

ghost use Rattle.std.specs.Prelude.{◌≡◌};
ghost use Rattle.replay.specs.Replays.{status_of};
ghost use Rattle.replay.specs.declared.endings.Halt.TheVariants.{Memory};

use fab_base::NoMem;
use std::alloc::AllocError;

/// How an input ends a run, or an audit.
#[derive(Clone, Copy, PartialEq, Eq)]
pub enum RunResult {
    /// All lines were run; or all that the text says holds.
    Whole,
    /// The input has no layout: the text before the line `---` is none, or there is no such line.
    BadLayout,
    /// This line behind the layout, counted from 1, is no line, or is not in its place.
    BadLine(u64),
    /// There are more lines than there may be.
    TooManyLines,
    /// What the text says does not hold: its marks, the happenings of a stripe, or its counts. No run ends so.
    Refuted,
}

/// What stops a run, or an audit, from outside.
#[derive(Clone, Copy, Debug, PartialEq, Eq)]
pub enum Halt {
    /// The source failed.
    Source,
    /// The sink failed.
    Sink,
    /// No memory was left.
    Memory,
}

impl From<NoMem> for Halt {
    ghost from_gives = { λ _ halt. halt ≡ Memory };

    fn from(_error: NoMem) -> Halt {
        Halt::Memory
    }
}

impl From<AllocError> for Halt {
    ghost from_gives = { λ _ halt. halt ≡ Memory };

    fn from(_error: AllocError) -> Halt {
        Halt::Memory
    }
}

/// The exit status of an end.
pub fn status_of(ending: Result<RunResult, Halt>) -> u8
    ensures { result ≡ status_of ending }
{
    match ending {
        Ok(RunResult::Whole) => 0,
        Ok(RunResult::BadLayout) => 3,
        Ok(RunResult::BadLine(_)) => 4,
        Ok(RunResult::TooManyLines) => 8,
        Ok(RunResult::Refuted) => 9,
        Err(Halt::Source) => 5,
        Err(Halt::Sink) => 6,
        Err(Halt::Memory) => 7,
    }
}
