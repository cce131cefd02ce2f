//! What is kept of one group.

ghost use Rattle.std.specs.Prelude.{◌≡◌};
ghost use Rattle.brick_state.specs.States.{with_view, with_ballots};

use fab_base::{Ballot, Members, View};

/// How many groups there may be: a brick keeps views and ballots of so many.
pub const MOST_GROUPS: u32 = 64;

/// What is kept of a group.
#[derive(Drop)]
pub struct Group {
    /// The greatest view learnt, above 1, and whether all its stripes are known to be in it.
    pub known: Option<(View, bool)>,
    /// The ballot promised for its successor, with the ballot accepted and its members.
    pub ballots: Option<(Ballot, Option<(Ballot, Members)>)>,
}

impl Group {
    /// Takes a view, and forgets what was promised and accepted for the successor of another one.
    pub fn learn(&mut self, view: &View, synced: bool)
        ensures { self.new ≡ with_view view.now synced self.old }
    {
        let same = match &self.known {
            Some((known, _)) => known.number == view.number,
            None => false,
        };
        if !same {
            self.ballots = None;
        }
        self.known = Some((view.copy(), synced));
    }

    /// Takes ballots.
    pub fn promise(&mut self, promised: Ballot, accepted: &Option<(Ballot, Members)>)
        ensures { self.new ≡ with_ballots promised accepted.now self.old }
    {
        let copied = match accepted {
            Some((ballot, members)) => Some((*ballot, members.copy())),
            None => None,
        };
        self.ballots = Some((promised, copied));
    }
}
