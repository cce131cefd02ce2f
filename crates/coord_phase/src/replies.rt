//! The replies that count in a phase.

ghost use Rattle.coord_phase.specs.Tallies.{IsTallyOf};

use crate::versions::told_stamp;
use fab_base::{NoMem, Stamp};
use protocol::Counted;
use quorum::{Policy, Tally};
use std::alloc::Global;

/// The replies that count in a phase, in the order in which they came, and their tally by seat: a reply that tells a version reports
/// its stamp.
#[derive(Drop)]
pub struct Replies {
    list: Vec<Counted>,
    tally: Tally,
    ghost tallied: { IsTallyOf list.items tally },
}

impl Replies {
    ghost use Rattle.std.specs.Prelude.{◌≡◌, ◌++◌, ◌∷◌, [], ◌-◌, ◌<◌, ℕ, false, OnOk, OnErr, MatchOption, length, take};
    ghost use Rattle.protocol.specs.Coordinators.{has_seat, pieces_at};
    ghost use Rattle.coord_phase.specs.Tallies.{IsAgreed};

    /// No reply counts yet of a view's members.
    pub(crate) fn new(alloc: Global, policy: Policy) -> Replies
        ensures none { result.list.items ≡ [] }
        ensures n { result.tally.n ≡ policy.n }
    {
        Replies {
            list: Vec::new(alloc),
            tally: Tally::new(policy),
        }
    }

    /// The replies, in the order in which they came.
    pub(crate) fn as_slice(&self) -> &[Counted]
        ensures { result.now ≡ self.now.list.items }
    {
        self.list.as_slice()
    }

    /// Whether a seat has a reply that counts.
    pub(crate) fn has_reply(&self, seat: u8) -> bool
        requires { seat < self.now.tally.n }
        ensures { result ≡ has_seat seat self.now.list.items }
    {
        self.tally.is_counted(seat)
    }

    /// The version that all replies tell. None exactly where they do not, or there is no reply.
    pub(crate) fn agreed(&self) -> Option<Stamp>
        ensures { MatchOption result ((v : Stamp) → ¬ (IsAgreed self.now.list.items v)) (IsAgreed self.now.list.items) }
    {
        self.tally.agreed()
    }

    /// How many of the replies tell this version.
    pub(crate) fn count_telling(&self, version: Stamp) -> usize
        ensures { result ≡ length (pieces_at version self.now.list.items) }
    {
        self.tally.with_stamp(version) as usize
    }

    /// Counts the reply of a seat that has none. Where memory runs out nothing has changed.
    pub(crate) fn push(&mut self, reply: Counted) -> Result<(), NoMem>
        requires within { reply.seat < self.old.tally.n }
        requires first { has_seat reply.seat self.old.list.items ≡ false }
        ensures counted { OnOk result (self.new.list.items ≡ self.old.list.items ++ (reply ∷ [])) }
        ensures err { OnErr result (self.new.list.items ≡ self.old.list.items) }
        ensures n { self.new.tally.n ≡ self.old.tally.n }
    {
        let seat = reply.seat;
        let mark = told_stamp(&reply.reply);
        self.list.push(reply)?;
        self.tally.add(seat, mark);
        Ok(())
    }

    /// Takes the last reply back.
    pub(crate) fn take_back(&mut self)
        ensures list { self.new.list.items ≡ take (length self.old.list.items - 1) self.old.list.items }
        ensures n { self.new.tally.n ≡ self.old.tally.n }
    {
        if let Some(last) = self.list.pop() {
            self.tally.take_back(last.seat);
        }
    }

    /// Forgets all replies of the members of this policy.
    pub(crate) fn clear(&mut self, policy: Policy)
        ensures none { self.new.list.items ≡ [] }
        ensures n { self.new.tally.n ≡ policy.n }
    {
        self.list.clear();
        self.tally = Tally::new(policy);
    }
}
