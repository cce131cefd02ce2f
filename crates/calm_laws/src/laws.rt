//! The laws of operations that run alone. The calls do nothing: their contracts are the laws.

ghost use Rattle.calm_laws.specs.Laws.{CalmOperationsEnd, CollectsLeaveOne};
ghost use Rattle.calm_laws.specs.LoneScrubs.{ScrubsEndAlone};

/// An operation that runs alone comes to its end, and is answered data or that it is done, and not aborted: whatever had happened before, whatever else is open, and
/// whatever view it is in.
///
/// It was asked for; or it is a read of a synchronisation, of a stripe that its group has; or it is a scrub, and these bricks are just the members that it names. It is
/// clean then, or has repaired.
///
/// It runs alone among some bricks where none of its messages was delivered before, and then those among these bricks are delivered one after
/// another, in the order of sending, and nothing else happens. The bricks are distinct and up, the view of its group that they have learnt is the operation's, and they
/// have accepted no list to follow it, a quorum of that view's members is among them, each has room for two live records more, and no time that they or its coordinator
/// know or keep is 2^63 or later (`protocol/specs/Calms.antt`, `IsCalm`). And the operation is in view 1, or one of these bricks knows that all stripes of the group are
/// kept in its view, or a quorum of the members of the view before is among them too: it may have to ask these. This holds for every layout within the limits of a quorum
/// whose bricks keep at most 2^20 live records, and for every code that gives back what it encodes, in blocks of the layout's length.
///
/// Why: each phase is answered by the first quorum of the members among these bricks, and by the same in every phase. The first round of
/// ordering may be refused, the second one is not: its stamp is above all that these members told. A recovery looks at ever lower versions,
/// and finds enough blocks of one at the latest at a version of the view that a quorum has held, and from which on these members keep all that they have held. There is
/// one: the first version in view 1, and in a later view one that stood when the view was said to be synced; or the greatest of those from which on these members have
/// dropped what is below (Frølund et al., "A Decentralized Algorithm for Erasure-Coded Virtual Disks", DSN 2004). Where its view was never said to be synced, it may find
/// nothing there. Then it looks back, and what it does in its own view it does in the one before: that was said to be synced, or is view 1, since a view followed it. What
/// these members keep there no delivery of the operation changes.
pub fn calm_operations_end()
    ensures { CalmOperationsEnd }
{}

/// Where such an operation ran alone and made a version, and just a quorum of the members of its view are among these bricks, its Collects leave that
/// version only: once they were delivered to these members, each handled whole, and nothing else happened meanwhile, each of these members keeps
/// one version of the stripe in that view, which is the operation's. One was sent to each of them; they may come in any order, and more than once.
///
/// Why: the members whose replies count are then all that are among these bricks, and each of them has stored the version, as its newest. A log
/// ascends, and no stamp stands twice in it: so what is not below its newest version is that version.
pub fn collects_leave_one()
    ensures { CollectsLeaveOne }
{}

/// A scrub that runs alone among the members that it names ends: it is reported clean, or repaired. It may run alone as it begins, and each event since was the
/// delivery of its message that goes next. Then it is open, and has one more such message, or it has ended so. Its brick need be none of the members.
///
/// Why: it is an operation that counts these members alone, so it comes to its end, and is not aborted. Until it ends its brick has it open, and as it ends the brick
/// reports it.
pub fn scrubs_end_alone()
    ensures { ScrubsEndAlone }
{}
