//! The laws of views. Each call does nothing: its contract is the law.

ghost use Rattle.view_laws.specs.Following.{EveryRunFollowsItsViews};
ghost use Rattle.view_laws.specs.Successors.{ChoicesHold, ClosedStays, NamesAreChosen, OneSuccessor};
ghost use Rattle.view_laws.specs.Ends.{BadMembersEndAtOnce, ProposalsShow};
ghost use Rattle.view_laws.specs.Syncs.{SyncsAreSaid};

/// Every run follows the members that its messages teach: those of view 1 are the layout's, and those of a later view are what the first message named that taught
/// it.
///
/// So each list of members is within the limits of its group and distinct; what a brick has learnt as a view, and as the members before it, is what that message
/// names; and where a brick has learnt a view, a quorum of each view before takes nothing below the next. This holds for every schedule, whichever messages are lost,
/// repeated or overtaken, and whichever bricks stop and start again.
pub fn every_run_follows_its_views()
    ensures follows { EveryRunFollowsItsViews }
{}

/// A view has one successor at most: any two lists that a quorum of its members accepted, each under one ballot, are the same (Lamport, "Paxos Made Simple", 2001).
///
/// Whatever names the members of a later view than view 1 names the list that was chosen to follow the view before, with that one's members: each message that
/// teaches a view, each reply that tells of one with its members, each answer that a list was decided, and what a brick has learnt. A reply that tells of a next view
/// without its members is of a brick that has accepted a list to be that.
///
/// What a brick has accepted, and what was chosen, holds in each later world. A brick never takes a promise to a ballot back while it has not learnt a later view, whether
/// it stops and starts in between or not, and it accepts nothing under a ballot below the one that it promised to.
///
/// Why: each view's choice is a history of the agreement that `synod_laws` proves. What a brick has accepted was proposed; a ballot is proposed once at most, by its own
/// brick, after a quorum promised to it; and a view has a name only once its list was chosen by the members of the one before.
pub fn a_view_has_one_successor()
    ensures one { OneSuccessor }
    ensures names { NamesAreChosen }
    ensures hold { ChoicesHold }
{}

/// A view that a quorum has closed stays closed. Where a list was chosen to follow a view, a quorum of the view's members has closed it: each of them has accepted a
/// list to follow it, or has learnt a later view.
///
/// A brick that has closed a view has it closed ever after, whether it stops and starts in between or not, and whether a handling that a stop cut short was kept or
/// not. It takes no promise and no version for a stripe of that view any more, and sends no reply that serves it.
pub fn a_closed_view_stays_closed()
    ensures { ClosedStays }
{}

/// The end of a proposal shows its cause, by the replies that counted in the phase in which it ended. They were sent to its brick as replies to that phase, by a quorum
/// of the view's members, each from a seat of its own.
///
/// - A list was decided: each of them accepted it, and it was chosen.
/// - A later view is told: one of them told it, and it is that of the lowest seat that told one.
/// - The view is not synced: none of them told a later view, and the member is the one of the lowest seat that told so.
/// - The proposal was outbid: none of them told either, and the ballot is the greatest that they told. It is above the one under which the proposal had asked.
///
/// A proposal ends without a phase, before anything is sent, exactly if its list may not keep the group.
pub fn proposals_show_their_ends()
    ensures shows { ProposalsShow }
    ensures at_once { BadMembersEndAtOnce }
{}

/// A view is followed by another only once all stripes are said to be kept in it. View 1 is so at first, and each other view only once a message was sent that says so.
///
/// What a brick knows to be synced was said to be. So was each view that a brick has accepted a list to follow, or that a list was chosen to follow; so was the view
/// before each one that a message teaches, or that an open operation is of, and each view before one that a brick has learnt.
pub fn a_followed_view_is_said_synced()
    ensures { SyncsAreSaid }
{}
