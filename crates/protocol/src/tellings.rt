//! What a brick's step tells: of its operations, and of how its proposal, its synchronisation and its scrub end.

use fab_base::{Answer, Ballot, BrickId, Cause, GroupId, Members, Stamp, StripeNo, ViewNo};
use messages::Call;

/// What a step tells of an operation of its brick: of its version, and of a read for a synchronisation or a scrub, which no client asked for, also that it began
/// and how it ended.
#[derive(Clone, Copy, PartialEq, Eq)]
pub enum Told {
    /// The operation makes a version: its first write is sent by this step.
    Made {
        /// The number of the call.
        seq: u64,
        /// The version's stamp.
        stamp: Stamp,
        /// The version that it was made on; a stripe write makes one on none.
        base: Option<Stamp>,
    },
    /// The operation reads a version, which all members told, and is answered it at once.
    Seen {
        /// The number of the call.
        seq: u64,
        /// The version's stamp.
        stamp: Stamp,
    },
    /// A read of a stripe for a synchronisation or a scrub began.
    Began {
        /// The call of its first phase, which names the stripe and the view.
        call: Call,
    },
    /// Such a read ended.
    Closed {
        /// The number of the call.
        seq: u64,
        /// Why it was aborted; none where it was answered.
        cause: Option<Cause>,
    },
}

/// The answer of an operation of a brick.
#[derive(Drop)]
pub struct Answered {
    /// The number of the call.
    pub seq: u64,
    /// The answer.
    pub answer: Answer,
}

/// The end of a proposal of a view's successor.
#[derive(Drop)]
pub enum ViewAnswer {
    /// These are the members of the view of this number.
    Decided {
        /// The view's number, one above that of the view whose successor it is.
        view: ViewNo,
        /// Its members, by seat.
        members: Members,
    },
    /// A member has promised to a greater ballot, the greatest that was told.
    Outbid {
        /// The greater ballot.
        ballot: Ballot,
    },
    /// At this member the stripes are not all known to be in the view yet.
    NotSynced {
        /// The member.
        brick: BrickId,
    },
    /// A member has learnt this later view.
    Moved {
        /// The later view.
        view: ViewNo,
    },
    /// The list that was proposed may not keep the group. Nothing was sent.
    BadMembers,
}

/// The end of the synchronisation of a view, in which each stripe of its group is read.
#[derive(Clone, Copy, PartialEq, Eq)]
pub enum SyncAnswer {
    /// All stripes are kept in the view of this number.
    Synced {
        /// The view's number.
        view: ViewNo,
    },
    /// The reads of this stripe were aborted as often as is allowed.
    Stopped {
        /// The stripe.
        stripe: StripeNo,
        /// Why the last of them was.
        cause: Cause,
    },
    /// The brick had no later time or call number left for a read of this stripe.
    Spent {
        /// The stripe.
        stripe: StripeNo,
    },
}

/// The end of a scrub, which brings some members of a stripe to one version.
#[derive(Drop)]
pub enum ScrubAnswer {
    /// All of them told the same newest version, and no order above it. Nothing was stored.
    Clean,
    /// All of them have stored one version.
    Repaired {
        /// The version's stamp.
        stamp: Stamp,
        /// Those of them whose newest version was behind the greatest that was told, by seat.
        lagging: Members,
    },
    /// It was given up.
    Aborted {
        /// Why.
        cause: Cause,
    },
}

/// What a brick reports of its proposal, its synchronisation or its scrub once that ends.
#[derive(Drop)]
pub enum Report {
    /// A proposal ended.
    View {
        /// The group.
        group: GroupId,
        /// The call of the phase in which it ended; none where nothing was sent.
        call: Option<Call>,
        /// How it ended.
        answer: ViewAnswer,
    },
    /// A synchronisation ended.
    Sync {
        /// The group.
        group: GroupId,
        /// How it ended.
        answer: SyncAnswer,
    },
    /// A scrub ended.
    Scrub {
        /// The call of the phase in which it ended, which names the group and the stripe.
        call: Call,
        /// The members that it was to bring to one version, as they were named.
        members: Members,
        /// How it ended.
        answer: ScrubAnswer,
    },
}
