//! Stamps, which order the versions of a stripe, and ballots, which order proposals of a view.

ghost use Rattle.std.specs.Prelude.{◌≡◌, ◌↔◌, true};
ghost use Rattle.fab_base.specs.Stamps.{stamp_below, stamp_same, ballot_below, IsStrictOrder};

use crate::identities::{BrickId, ViewNo};
use std::cmp::Ordering;
use std::fmt;

/// When a version of a stripe was made: compared field by field, from the first (Frølund 2004, timestamps). No two operations
/// have one stamp, since a brick's boots rise and its times within a boot do.
#[derive(Clone, Copy, Debug, PartialEq, Eq, PartialOrd, Ord)]
pub struct Stamp {
    /// The view that the version belongs to.
    pub view: ViewNo,
    /// The coordinator's time.
    pub time: u64,
    /// The coordinator.
    pub brick: BrickId,
    /// How often the coordinator's store had been opened.
    pub boot: u32,
}

impl Stamp {
    /// The stamp of the zero block that each stripe begins with, below every other.
    pub const FIRST: Stamp = Stamp {
        view: ViewNo(0),
        time: 0,
        brick: BrickId(0),
        boot: 0,
    };

    /// Whether this stamp is below the other, by the first field that differs.
    pub fn is_below(self, other: Stamp) -> bool
        ensures { result ≡ stamp_below self other }
    {
        self < other
    }

    /// Whether this stamp and the other are the same.
    pub fn is_same(self, other: Stamp) -> bool
        ensures { result ≡ stamp_same self other }
    {
        self == other
    }

    /// How this stamp stands to the other in their strict total order.
    pub fn compare(self, other: Stamp) -> Ordering
        ensures less { (result ≡ Ordering.Less) ↔ (stamp_below self other ≡ true) }
        ensures equal { (result ≡ Ordering.Equal) ↔ (self ≡ other) }
        ensures greater { (result ≡ Ordering.Greater) ↔ (stamp_below other self ≡ true) }
        ensures order { IsStrictOrder stamp_below }
    {
        self.cmp(&other)
    }
}

impl fmt::Display for Stamp {
    ghost use Rattle.std.specs.Prelude.{Some};
    ghost use Rattle.fab_base.specs.Stamps.{stamp_text};

    ghost output = { λ stamp. Some (stamp_text stamp) };

    fn fmt<W: fmt::Write>(&self, f: &mut fmt::Formatter<W>) -> fmt::Result {
        let view = self.view.0;
        let time = self.time;
        let brick = self.brick.0;
        let boot = self.boot;
        write!(f, "{view}.{time}.{brick}.{boot}")
    }
}

/// A round of agreement on a view's successor: compared field by field, from the first.
#[derive(Clone, Copy, Debug, PartialEq, Eq, PartialOrd, Ord)]
pub struct Ballot {
    /// The proposer's round, from 1.
    pub round: u32,
    /// The proposer.
    pub brick: BrickId,
    /// How often the proposer's store had been opened.
    pub boot: u32,
}

impl Ballot {
    /// Whether this ballot is below the other, by the first field that differs.
    pub fn is_below(self, other: Ballot) -> bool
        ensures value { result ≡ ballot_below self other }
        ensures order { IsStrictOrder ballot_below }
    {
        self.lt(&other)
    }
}

impl fmt::Display for Ballot {
    ghost use Rattle.std.specs.Prelude.{Some};
    ghost use Rattle.fab_base.specs.Stamps.{ballot_text};

    ghost output = { λ ballot. Some (ballot_text ballot) };

    fn fmt<W: fmt::Write>(&self, f: &mut fmt::Formatter<W>) -> fmt::Result {
        let round = self.round;
        let brick = self.brick.0;
        let boot = self.boot;
        write!(f, "{round}.{brick}.{boot}")
    }
}
