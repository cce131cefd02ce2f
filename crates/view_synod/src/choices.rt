//! What the replies of a phase say: which of them refuse the proposal, and the list that was accepted last.

ghost use Rattle.std.specs.Prelude.{◌≡◌, Option};
ghost use Rattle.std.specs.Option.{option_map};
ghost use Rattle.protocol.specs.declared.phases.Counted.{Counted};
ghost use Rattle.synod_laws.specs.Synods.{greater_told};
ghost use Rattle.protocol.specs.Proposals.{lower_seat, lowest, moved_view, unsynced_brick, outbid_ballot, greater_ballot, greatest_outbid, refused_by, told_choice, greatest_choice};

use crate::answers::ViewAnswer;
use fab_base::{Ballot, BrickId, Members, ViewNo};
use messages::Reply;
use protocol::Counted;

/// What a reply may tell that refuses a proposal.
trait Refused: Copy {
    // what a reply tells
    ghost tells: { Counted → Option Self };

    /// What this reply tells, if it tells such a thing.
    fn told(counted: &Counted) -> Option<Self>
        ensures { result ≡ tells counted.now };
}

/// A later view that a member has learnt.
impl Refused for ViewNo {
    ghost tells = { moved_view };

    fn told(counted: &Counted) -> Option<ViewNo> {
        match &counted.reply {
            Reply::Moved { view, .. } => Some(*view),
            _ => None,
        }
    }
}

/// A member at which the view is not synced.
impl Refused for BrickId {
    ghost tells = { unsynced_brick };

    fn told(counted: &Counted) -> Option<BrickId> {
        match &counted.reply {
            Reply::NotSynced => Some(counted.brick),
            _ => None,
        }
    }
}

/// Of two things that seats told, where there are some, the one of the lower seat.
fn lower_seat<T: Refused>(left: Option<(u8, T)>, right: Option<(u8, T)>) -> Option<(u8, T)>
    ensures { result ≡ lower_seat left right }
{
    match (left, right) {
        (None, right) => right,
        (Some(left), None) => Some(left),
        (Some(left), Some(right)) => {
            if right.0 < left.0 {
                Some(right)
            } else {
                Some(left)
            }
        }
    }
}

/// What this reply tells, with its seat, if it tells such a thing.
fn told_at<T: Refused>(counted: &Counted) -> Option<(u8, T)>
    ensures { result ≡ option_map (λ told. (counted.now.seat, told)) (T.tells counted.now) }
{
    match T::told(counted) {
        Some(told) => Some((counted.seat, told)),
        None => None,
    }
}

/// What the lowest seat told of those whose replies tell such a thing, with that seat.
fn lowest<T: Refused>(counted: &[Counted]) -> Option<(u8, T)>
    ensures { result ≡ lowest T.tells counted.now }
{
    match counted.split_first() {
        None => None,
        Some((first, others)) => lower_seat(told_at(first), lowest(others)),
    }
}

/// The greater ballot that a reply tells, if it tells one.
fn outbid_ballot(counted: &Counted) -> Option<Ballot>
    ensures { result ≡ outbid_ballot counted.now }
{
    match &counted.reply {
        Reply::Outbid { ballot } => Some(*ballot),
        _ => None,
    }
}

/// The greater of two ballots, where there are some.
fn greater_ballot(left: Option<Ballot>, right: Option<Ballot>) -> Option<Ballot>
    ensures { result ≡ greater_ballot left right }
{
    match (left, right) {
        (None, right) => right,
        (Some(left), None) => Some(left),
        (Some(left), Some(right)) => {
            if left.is_below(right) {
                Some(right)
            } else {
                Some(left)
            }
        }
    }
}

/// The greatest ballot that the replies tell, if they tell one.
fn greatest_outbid(counted: &[Counted]) -> Option<Ballot>
    ensures { result ≡ greatest_outbid counted.now }
{
    match counted.split_first() {
        None => None,
        Some((first, others)) => greater_ballot(outbid_ballot(first), greatest_outbid(others)),
    }
}

/// How the replies refuse the proposal, if one does: a later view first, then a view that is not synced, each as the lowest seat told it, and then the greatest
/// ballot told.
pub(crate) fn refused_by(counted: &[Counted]) -> Option<ViewAnswer>
    ensures { result ≡ refused_by counted.now }
{
    let moved: Option<(u8, ViewNo)> = lowest(counted);
    if let Some((_, view)) = moved {
        return Some(ViewAnswer::Moved { view });
    }
    let unsynced: Option<(u8, BrickId)> = lowest(counted);
    if let Some((_, brick)) = unsynced {
        return Some(ViewAnswer::NotSynced { brick });
    }
    match greatest_outbid(counted) {
        Some(ballot) => Some(ViewAnswer::Outbid { ballot }),
        None => None,
    }
}

/// The list that a promise tells, with the ballot under which it was accepted.
fn told_choice(reply: &Reply) -> Option<(Ballot, Members)>
    ensures { result ≡ told_choice reply.now }
{
    match reply {
        Reply::Promise {
            accepted: Some(choice),
        } => Some((choice.ballot, choice.members.copy())),
        _ => None,
    }
}

/// Of two lists that were told, each with its ballot, the one of the greater ballot.
fn greater_choice(
    left: Option<(Ballot, Members)>,
    right: Option<(Ballot, Members)>,
) -> Option<(Ballot, Members)>
    ensures { result ≡ greater_told left right }
{
    match (left, right) {
        (None, right) => right,
        (Some(left), None) => Some(left),
        (Some(left), Some(right)) => {
            if left.0.is_below(right.0) {
                Some(right)
            } else {
                Some(left)
            }
        }
    }
}

/// The list of the greatest ballot that promises tell, with that ballot, if they tell one.
pub(crate) fn greatest_choice(counted: &[Counted]) -> Option<(Ballot, Members)>
    ensures { result ≡ greatest_choice counted.now }
{
    match counted.split_first() {
        None => None,
        Some((first, others)) => {
            greater_choice(told_choice(&first.reply), greatest_choice(others))
        }
    }
}
