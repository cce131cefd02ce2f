//! What a range asks for, and how it ends.

ghost use Rattle.std.specs.Prelude.{◌≡◌};
ghost use Rattle.front.specs.Halts.{answer_of};

use fab_base::{Ask, Bytes, Cause, Refusal};

/// Why an operation of a range did not do what it was asked for.
#[derive(Clone, Copy, PartialEq, Eq)]
pub enum Why {
    /// The operation was aborted.
    Cause(Cause),
    /// The operation was not begun.
    Refused(Refusal),
}

/// How a range ends.
#[derive(Drop)]
pub enum RangeAnswer {
    /// All of it was done: for a read the bytes of the range in order, for a write no bytes.
    Done(Bytes),
    /// An operation was aborted or refused.
    Stopped {
        /// How many data blocks of the range were done before it.
        blocks: u64,
        /// Why it was.
        why: Why,
    },
    /// The first byte or the length is no multiple of the layout's block size. Nothing was asked for.
    Unaligned,
    /// The range passes the end of the volume, or there is no such volume and it has bytes. Nothing was asked for.
    Beyond,
}

/// What a range wants next.
#[derive(Drop)]
pub enum RangeStep {
    /// This operation is to be done, and its end told.
    Ask(Ask),
    /// The range has ended.
    End(RangeAnswer),
}

// Why a range ends before all of its operations are done.
#[derive(Clone, Copy, PartialEq, Eq)]
pub(crate) enum Halt {
    Unaligned,
    Beyond,
    Stopped(Why),
}

impl Halt {
    // The answer of a range that halts after so many data blocks.
    pub(crate) fn answer(self, blocks: u64) -> RangeAnswer
        ensures { result ≡ answer_of blocks self }
    {
        match self {
            Halt::Unaligned => RangeAnswer::Unaligned,
            Halt::Beyond => RangeAnswer::Beyond,
            Halt::Stopped(why) => RangeAnswer::Stopped { blocks, why },
        }
    }
}
