//! The acceptor of a view's successor.

ghost use Rattle.std.specs.Prelude.{◌≡◌};

use crate::votes::Vote;
use fab_base::{Ballot, Members, View, ViewNo};
use std::marker::Model;

/// A ballot, and the list that was accepted under it.
type Accepted = (Ballot, Members);

/// A member of a view that is asked for the view's successor. No call takes memory.
///
/// A clause sees the view that is asked about, what the member has learnt, and what it keeps of ballots.
#[derive(Drop)]
pub struct Acceptor {
    of: ViewNo,
    learnt: View,
    synced: bool,
    kept: Option<(Ballot, Option<Accepted>)>,
}

impl Model for Acceptor {
    ghost use Rattle.view_synod.specs.Acceptors.{Acceptor};

    ghost Value = { Acceptor };

    ghost view = { λ acceptor. record {
      of = acceptor.of.0;
      learnt = record { view = acceptor.learnt; synced = acceptor.synced };
      kept = acceptor.kept;
    } };
}

/// An equal list with its ballot, if there is one.
fn copy_accepted(accepted: &Option<Accepted>) -> Option<Accepted>
    ensures { result ≡ accepted.now }
{
    match accepted {
        Some((ballot, members)) => Some((*ballot, members.copy())),
        None => None,
    }
}

impl Acceptor {
    ghost use Rattle.std.specs.Prelude.{◌≡◌, None, Some};
    ghost use Rattle.std.specs.Option.{option_map};
    ghost use Rattle.synod_laws.specs.Synods.{last_of};
    ghost use Rattle.protocol.specs.Ballots.{outbidding, ballot_refusal};
    ghost use Rattle.view_synod.specs.Acceptors.{kept_of, promised_of, reply_of, vote_of, after_vote, NeverFalls, PromisesTruly, AcceptsTruly};

    /// A brick that is asked for the successor of the view `of`: it has learnt this view of the group, whose stripes are all known to be in it or not; and for
    /// the successor of that it has promised to this ballot and accepted this list last, if any.
    pub fn new(
        of: ViewNo,
        learnt: View,
        synced: bool,
        promised: Option<Ballot>,
        accepted: Option<(Ballot, Members)>,
    ) -> Acceptor
        ensures { result ≡ record { of = of.0; learnt = record { view = learnt; synced = synced }; kept = kept_of promised accepted } }
    {
        let kept = match (promised, accepted) {
            (Some(promised), accepted) => Some((promised, accepted)),
            (None, Some((ballot, members))) => Some((ballot, Some((ballot, members)))),
            (None, None) => None,
        };
        Acceptor {
            of,
            learnt,
            synced,
            kept,
        }
    }

    /// The greatest ballot that it has promised to, if any.
    pub fn promised(&self) -> Option<Ballot>
        ensures { result ≡ promised_of self.now.kept }
    {
        match &self.kept {
            Some((promised, _)) => Some(*promised),
            None => None,
        }
    }

    /// The list that it accepted last, with its ballot, if any.
    pub fn accepted(&self) -> Option<(Ballot, Members)>
        ensures { result ≡ last_of self.now.kept }
    {
        match &self.kept {
            Some((_, accepted)) => copy_accepted(accepted),
            None => None,
        }
    }

    /// The ballot that it has promised to, if it is greater than this one.
    fn outbidding(&self, ballot: Ballot) -> Option<Ballot>
        ensures { result ≡ outbidding self.now.kept ballot }
    {
        let promised = self.promised()?;
        if ballot.is_below(promised) {
            Some(promised)
        } else {
            None
        }
    }

    /// Why it refuses a ballot, if it does.
    fn refusal(&self, ballot: Ballot) -> Option<Vote>
        ensures { option_map reply_of result ≡ ballot_refusal self.now.of self.now.learnt self.now.kept ballot }
    {
        if self.of.0 < self.learnt.number.0 {
            return Some(Vote::Moved(self.learnt.copy()));
        }
        if !self.synced {
            return Some(Vote::NotSynced);
        }
        match self.outbidding(ballot) {
            Some(greater) => Some(Vote::Outbid(greater)),
            None => None,
        }
    }

    /// Promises to a ballot: it accepts nothing under a lesser one from then on. It tells the list that it accepted last.
    ///
    /// It refuses if it has learnt a later view, if its view is not synced, or if it has promised to a greater ballot, in this order. Nothing changes then.
    #[tactic(auto, unfolding(protocol::specs::Ballots::voting))]
    pub fn prepare(&mut self, ballot: Ballot) -> Vote
        ensures vote { reply_of result ≡ (vote_of self.old ballot None).reply }
        ensures kept { self.new ≡ after_vote self.old ballot None }
        ensures never_falls { NeverFalls self.old.kept self.new.kept }
        ensures truly { PromisesTruly result self.old.kept ballot self.new.kept }
    {
        match self.refusal(ballot) {
            Some(refused) => refused,
            None => {
                let accepted = self.accepted();
                self.kept = Some((ballot, copy_accepted(&accepted)));
                Vote::Promise(accepted)
            }
        }
    }

    /// Accepts a list of members under a ballot, to which it promises too.
    ///
    /// It refuses as a promise does. Nothing changes then.
    #[tactic(auto, unfolding(protocol::specs::Ballots::voting))]
    pub fn accept(&mut self, ballot: Ballot, members: Members) -> Vote
        ensures vote { reply_of result ≡ (vote_of self.old ballot (Some members)).reply }
        ensures kept { self.new ≡ after_vote self.old ballot (Some members) }
        ensures never_falls { NeverFalls self.old.kept self.new.kept }
        ensures truly { AcceptsTruly result self.old.kept ballot members self.new.kept }
    {
        match self.refusal(ballot) {
            Some(refused) => refused,
            None => {
                self.kept = Some((ballot, Some((ballot, members))));
                Vote::Accepted
            }
        }
    }
}
