//! What a line claims, with its numbers as they stand there: any below 2^64.

ghost use Rattle.std.specs.Prelude.{◌≡◌};

use crate::happening_lists::HappeningList;
use fab_base::Bytes;
use lines::Access;

/// A stamp.
#[derive(Clone, Copy)]
pub struct ClaimedStamp {
    /// The view.
    pub view: u64,
    /// The coordinator's time.
    pub time: u64,
    /// The coordinator.
    pub brick: u64,
    /// How often the coordinator's store had been opened.
    pub boot: u64,
}

/// Why an operation was aborted.
#[derive(Clone, Copy)]
pub enum ParsedCause {
    /// A brick had a later stamp.
    Later {
        /// The brick.
        brick: u64,
        /// The stamp.
        stamp: ClaimedStamp,
    },
    /// A brick had dropped the version.
    Gone {
        /// The brick.
        brick: u64,
    },
    /// A brick's store was full.
    Full {
        /// The brick.
        brick: u64,
        /// How many live records it had.
        live: u64,
    },
    /// A brick had learnt a later view.
    Moved {
        /// The brick.
        brick: u64,
        /// The view.
        view: u64,
    },
}

/// An answer.
#[derive(Drop)]
pub enum ParsedAnswer {
    /// A read's data.
    Data(Bytes),
    /// A write is done.
    Done,
    /// The operation was aborted.
    Aborted(ParsedCause),
}

/// A mark.
#[derive(Drop)]
pub enum ParsedMark {
    /// An operation begins.
    Begin {
        /// The mark's position.
        position: u64,
        /// The operation's number.
        operation: u64,
        /// The coordinator.
        brick: u64,
        /// The group.
        group: u64,
        /// The stripe within the group.
        stripe: u64,
        /// What is asked.
        access: Access,
    },
    /// An operation is answered.
    End {
        /// The mark's position.
        position: u64,
        /// The operation's number.
        operation: u64,
        /// The answer.
        outcome: ParsedAnswer,
    },
    /// A brick stops.
    Crash {
        /// The mark's position.
        position: u64,
        /// The brick.
        brick: u64,
    },
}

impl ParsedMark {
    ghost use Rattle.transcript.specs.Transcripts.{position_said};

    /// The position that the mark says.
    pub fn position(&self) -> u64
        ensures { result ≡ position_said self.now }
    {
        match self {
            ParsedMark::Begin { position, .. } => *position,
            ParsedMark::End { position, .. } => *position,
            ParsedMark::Crash { position, .. } => *position,
        }
    }
}

/// The happenings of a stripe.
#[derive(Drop)]
pub struct StripeLine {
    /// The group.
    pub group: u64,
    /// The stripe within the group.
    pub stripe: u64,
    /// Its happenings, in order.
    pub happenings: HappeningList,
}

impl StripeLine {
    ghost use Rattle.transcript.specs.Transcripts.{stripe_before};

    /// Whether the stripe is before another, by group and then by number.
    pub fn is_before(&self, other: &StripeLine) -> bool
        ensures { result ≡ stripe_before self.now other.now }
    {
        self.group < other.group || (self.group == other.group && self.stripe < other.stripe)
    }
}

/// How many marks of each kind there are.
#[derive(Clone, Copy)]
pub struct Counts {
    /// The Begins.
    pub begun: u64,
    /// The Ends that are no aborts.
    pub answered: u64,
    /// The Ends that are aborts.
    pub aborted: u64,
    /// The Crashes.
    pub crashes: u64,
}

/// What a line says.
#[derive(Drop)]
pub enum Entry {
    /// A mark.
    Mark(ParsedMark),
    /// A refusal, `idle`, or how a proposal, a sync job or a scrub ended: what it says is not kept.
    Other,
    /// The happenings of a stripe.
    Happened(StripeLine),
    /// The counts, with how many lines the schedule had, which is not kept.
    Counted(Counts),
}
