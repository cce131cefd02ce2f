//! The count of a phase's replies, by seat.

ghost use Rattle.std.specs.Prelude.{◌≡◌, ◌<◌, ◌≤◌, ◌↔◌, true, IsTrue, MatchOption, length};
ghost use Rattle.fab_base.specs.declared.stamps.Stamp.{Stamp};
ghost use Rattle.quorum.specs.Quorums.{count};

use crate::policies::Policy;
use crate::seat_lists::{all_fit, counted_seats, first_mark, seats_with};
use crate::seats::Seat;
use fab_base::Stamp;
use std::marker::Model;

/// The first reply of each seat of one phase. No call takes memory.
#[derive(Drop)]
pub struct Tally {
    n: u8,
    q: u8,
    seats: [Seat; 32],
}

impl Model for Tally {
    ghost use Rattle.std.specs.Prelude.{◌≤◌, take};
    ghost use Rattle.quorum.specs.Tallies.{Votes};

    ghost Value = { Votes };

    ghost view = { λ tally. record { n = tally.n; q = tally.q; seats = take tally.n tally.seats } };

    ghost invariant = { λ tally. tally.n ≤ 32 };
}

impl Tally {
    ghost use Rattle.quorum.specs.Tallies.{no_votes, with_vote, without_vote, counted, counted_with, IsUnanimous};

    /// A tally of this policy's seats, none of which has replied.
    pub fn new(policy: Policy) -> Tally
        ensures { result ≡ no_votes policy }
    {
        Tally {
            n: policy.n(),
            q: policy.q(),
            seats: [Seat::Silent; 32],
        }
    }

    /// An equal tally.
    pub fn copy(&self) -> Tally
        ensures { result ≡ self.now }
    {
        Tally {
            n: self.n,
            q: self.q,
            seats: self.seats,
        }
    }

    /// Counts a seat's reply, with the stamp that it reports, if any. A seat that is counted keeps its first reply.
    pub fn add(&mut self, seat: u8, mark: Option<Stamp>)
        requires { seat < self.old.n }
        ensures vote { self.new ≡ with_vote self.old seat mark }
        ensures first_stays { counted self.old seat ≡ true → self.new ≡ self.old }
        ensures places { length self.new.seats ≡ self.new.n }
    {
        let place = usize::from(seat);
        self.seats[place] = self.seats[place].after_reply(mark);
    }

    /// Takes a seat's reply back: the seat has not replied.
    pub fn take_back(&mut self, seat: u8)
        requires { seat < self.old.n }
        ensures taken { self.new ≡ without_vote self.old seat }
        ensures places { length self.new.seats ≡ self.new.n }
    {
        self.seats[usize::from(seat)] = Seat::Silent;
    }

    /// Whether a seat's reply is counted.
    pub fn is_counted(&self, seat: u8) -> bool
        requires { seat < self.now.n }
        ensures { result ≡ counted self.now seat }
    {
        self.seats[usize::from(seat)].is_counted()
    }

    /// Whether at least a quorum of seats is counted.
    pub fn has_quorum(&self) -> bool
        ensures { IsTrue result ↔ (self.now.q ≤ count self.now.n (counted self.now)) }
    {
        counted_seats(self.replies()) >= usize::from(self.q)
    }

    /// Whether exactly a quorum of seats is counted.
    pub fn full(&self) -> bool
        ensures { IsTrue result ↔ (count self.now.n (counted self.now) ≡ self.now.q) }
    {
        counted_seats(self.replies()) == usize::from(self.q)
    }

    /// Whether the counted seats all report one stamp, none of them missing. An empty tally is not unanimous, since
    /// it has no stamp.
    pub fn unanimous(&self) -> bool
        ensures { IsTrue result ↔ ((v : Stamp) × IsUnanimous self.now v) }
    {
        self.agreed().is_some()
    }

    /// The one stamp that all counted seats report. None exactly where the tally is not unanimous.
    pub fn agreed(&self) -> Option<Stamp>
        ensures { MatchOption result ((v : Stamp) → ¬ (IsUnanimous self.now v)) (IsUnanimous self.now) }
    {
        let replies = self.replies();
        match first_mark(replies) {
            None => None,
            Some(first) => {
                if all_fit(replies, first) {
                    Some(first)
                } else {
                    None
                }
            }
        }
    }

    /// How many counted seats report this stamp.
    pub fn with_stamp(&self, stamp: Stamp) -> u8
        ensures { result ≡ count self.now.n (counted_with self.now stamp) }
    {
        seats_with(self.replies(), stamp) as u8
    }

    // What each seat below n has said.
    fn replies(&self) -> &[Seat]
        ensures value { result.now ≡ self.now.seats }
        ensures len { length result.now ≡ self.now.n }
        ensures few { self.now.n ≤ 32 }
    {
        &self.seats[..usize::from(self.n)]
    }
}
