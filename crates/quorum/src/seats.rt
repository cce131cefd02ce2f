//! What one seat has said.

ghost use Rattle.std.specs.Prelude.{◌≡◌};

use fab_base::Stamp;

/// What a seat has said in a phase.
#[derive(Clone, Copy)]
pub enum Seat {
    /// No reply of this seat is counted yet.
    Silent,
    /// The seat's first reply is counted, with the stamp that it reported, if any.
    Counted(Option<Stamp>),
}

impl Seat {
    ghost use Rattle.quorum.specs.Tallies.{is_counted, reports, fits, after_reply, mark_of};

    pub(crate) fn is_counted(&self) -> bool
        ensures { result ≡ is_counted self.now }
    {
        match self {
            Seat::Silent => false,
            Seat::Counted(_) => true,
        }
    }

    // Whether the seat's counted reply reported the stamp.
    #[tactic(auto, unfolding(fab_base::specs::Stamps::stamp_same))]
    pub(crate) fn reports(&self, stamp: Stamp) -> bool
        ensures { result ≡ reports stamp self.now }
    {
        match self.mark() {
            None => false,
            Some(reported) => reported == stamp,
        }
    }

    // Whether the seat may stand in a tally that agrees on the stamp.
    pub(crate) fn fits(&self, stamp: Stamp) -> bool
        ensures { result ≡ fits stamp self.now }
    {
        !self.is_counted() || self.reports(stamp)
    }

    // What the seat has said after a reply.
    pub(crate) fn after_reply(self, mark: Option<Stamp>) -> Seat
        ensures { result ≡ after_reply self mark }
    {
        match self {
            Seat::Silent => Seat::Counted(mark),
            Seat::Counted(first) => Seat::Counted(first),
        }
    }

    // The stamp that the seat's counted reply reported.
    pub(crate) fn mark(&self) -> Option<Stamp>
        ensures { result ≡ mark_of self.now }
    {
        match self {
            Seat::Silent => None,
            Seat::Counted(mark) => *mark,
        }
    }
}
