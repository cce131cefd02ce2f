//! The rounds of a brick's ballots.

use crate::answers::ViewNext;
use crate::proposers::Proposer;
use fab_base::{Ballot, BrickId, CallId, GroupId, NoMem, View};
use messages::{Message, Reply};
use quorum::is_membership;
use std::alloc::Global;
use std::marker::Model;

/// The greatest round of a ballot that a brick used or heard of since its start: its next proposal has a greater one.
#[derive(Drop)]
pub struct Rounds {
    greatest: u32,
}

impl Model for Rounds {
    ghost use Rattle.std.specs.Prelude.{ℕ};

    ghost Value = { ℕ };

    ghost view = { λ rounds. rounds.greatest };
}

impl Rounds {
    ghost use Rattle.std.specs.Prelude.{◌≡◌, ◌-◌, ◌<◌, ◌^◌, nat_lt, not, IfOk, OnOk, OnErr, length};
    ghost use Rattle.quorum.specs.Quorums.{IsWithinLimits};
    ghost use Rattle.quorum.specs.Memberships.{is_membership};
    ghost use Rattle.view_synod.specs.Proposers.{started, StartsAs};
    ghost use Rattle.protocol.specs.Proposals.{round_heard, next_ballot, round_used};

    /// The rounds of a brick that was just started: it has used and heard of none.
    pub fn new() -> Rounds
        ensures { result ≡ 0 }
    {
        Rounds { greatest: 0 }
    }

    /// Whether no greater round is left.
    pub fn is_spent(&self) -> bool
        ensures { result ≡ not (nat_lt self.now (2 ^ 32 - 1)) }
    {
        self.greatest >= u32::MAX
    }

    /// Takes note of a message that the brick heard: an Outbid tells a round, also where it does not count in a proposal.
    pub fn heard(&mut self, message: &Message)
        ensures { self.new ≡ round_heard self.old message.now }
    {
        if let Message::Reply(_, Reply::Outbid { ballot }) = message {
            self.greatest = self.greatest.max(ballot.round);
        }
    }

    /// Proposes these members under the next ballot of this brick, as [`Proposer::start`] does, where a greater round is left.
    ///
    /// A list that is answered BadMembers uses up no round.
    ///
    /// # Errors
    ///
    /// `NoMemory` where no memory was left; then nothing has changed.
    pub fn propose(
        &mut self,
        alloc: Global,
        me: BrickId,
        bricks: u16,
        m: u8,
        group: GroupId,
        view: View,
        call: CallId,
        members: &[BrickId],
    ) -> Result<(Proposer, ViewNext), NoMem>
        requires round { self.old < 2 ^ 32 - 1 }
        requires limits { IsWithinLimits m (length view.members) }
        requires number { view.number.0 < 2 ^ 32 - 1 }
        ensures starts { IfOk result (λ begun. StartsAs (started bricks m group view call (next_ballot self.old me call) members.now) begun.1 begun.0) }
        ensures used { OnOk result (self.new ≡ round_used self.old (is_membership m bricks members.now)) }
        ensures err { OnErr result (self.new ≡ self.old) }
    {
        let round = self.greatest + 1;
        let ballot = Ballot {
            round,
            brick: me,
            boot: call.boot,
        };
        let begun = Proposer::start(alloc, bricks, m, group, view, call, ballot, members)?;
        if is_membership(m, bricks, members) {
            self.greatest = round;
        }
        Ok(begun)
    }
}
