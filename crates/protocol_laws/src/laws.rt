//! The laws of the disk. Each call does nothing: its contract is the law.

ghost use Rattle.protocol_laws.specs.Laws.{EveryRunKeepsTheLaws, NeverSurfaces, NoEventLowers};

/// Every run of the disk keeps its laws, whatever is asked of it, whatever its clocks read, whichever of its
/// bricks stop and start again, whether a handling that a stop cut short had kept its change or not, and whichever of its
/// messages are delivered, lost, repeated or overtaken.
///
/// This holds for every layout whose groups are within the limits of a quorum, for every code that gives back what it encodes,
/// and for every assignment of members to views that the run follows: its lists are distinct and within the limits, what a brick
/// has learnt as a view is the assignment's, and where a brick has learnt a view, a quorum of each view before takes nothing below
/// the next. A law on a version speaks of the members of the version's view: the view of its stamp, of the message that carries it,
/// or of the part that keeps it. What a brick has come to is the stamp below which it takes nothing for a stripe, over all views.
/// An operation that a client asked for has marks: its begin and its end. A read that a brick begins to synchronise a view, or as a scrub, has
/// none, and is no happening. It may make a version, as any recovery does, and the laws on versions speak of that one too.
/// The laws are these.
///
/// - Each stripe is strictly linearizable (Aguilera and Frølund, "Strict Linearizability and the Power of Aborting", 2003):
///   its happenings, each between the begin and the end of its operation, make its blocks plain registers, and every operation
///   with marks that was answered is among them.
/// - Versions follow real time (Frølund et al., "A Decentralized Algorithm for Erasure-Coded Virtual Disks", DSN 2004).
///   The earlier of two operations has marks; the later one may have none.
/// - One stamp has one content: every block that was sent to be written under a stamp, that was found under it, or that a member
///   keeps under it, is its seat's block of that content. A member that is asked for its block with a version, and tells one, tells
///   that block. What is sent to modify a base is what one data block changes by from the
///   base's content to the version's, and every other data block is the base's.
/// - Whenever a version was sent to be stored, a quorum of its view took nothing below its stamp then, and has so ever since; and its
///   operation had not ended.
/// - A member says that it stored a version only where it was asked to, and has held it.
/// - Members are told to drop what is below a version only after a quorum of its view has held it; and what a member dropped, of a
///   view whose versions it keeps, lies below a version that it keeps, and that a quorum has held. What a quorum "has held", each of
///   its members has kept at some time. A member keeps the versions of the view that it has learnt, and those of the one before while
///   it does not know all stripes to be kept in the learnt one.
/// - Where a member keeps no versions of a view any more, a quorum of the next view's members has held a version of that, of each stripe.
/// - Each message that all stripes of a group are kept in a view is true: of each stripe a quorum of the view's members has held a version of
///   that view.
/// - A synchronisation that was stopped at a stripe had read it eight times, one read after another; each was aborted, and shows why as
///   any abort does; and the last was aborted for the cause that is told.
/// - A scrub that ended shows how, by the replies that counted: those of the members that it names, but for a phase that asked for what is
///   kept in the view before. Where it was clean, each of these members had told one version as its newest, in the scrub's only phase, and has
///   held it. Where it has repaired, each had said, in the last phase, that it stored the version, and has held it; and those lagged, of the
///   members of its view, in the order of seats, who by the replies to its first phase told an earlier version than the newest of all, or none.
///   Where it was aborted, it shows why as any abort does.
/// - A version's content is what its maker makes of its base's: a stripe write's bytes, what a recovery read back, or that with the
///   one block that is written. The content of the first version is zero.
/// - A version that is made on a base, as a recovery's or a block write's is, is above it; and no quorum of its view has held a
///   version between the two, or ever will (Frølund et al., DSN 2004).
/// - A block write that reads its base back finds it: once the replies of a quorum count, and none refuses, at least m of them tell
///   blocks of the base.
/// - An operation that looks back finds a version: once the replies of a quorum of the members of the view before count, and none tells
///   that its member has dropped what it kept, one of them tells a version.
/// - Of two neighbours among the versions that take effect, the upper was written whole, or was made on the lower. The lowest is the
///   first version, or was written whole, or was made on the first one.
/// - Each reply that counted in a phase of an operation was sent to its coordinator, as a reply to that phase.
/// - An operation is aborted for a later view, for versions that were dropped, for a later stamp or for a full store, and for nothing else.
/// - For a later stamp only where, in its last phase, a member had told its coordinator of a later stamp than the one that it was
///   asked at, and no reply that counted in that phase told a greater one, or an equal one from a lower seat. A round of ordering,
///   of which an operation has four at most, aborts only where no other may follow: the three rounds before it had each counted a
///   later stamp, or its coordinator knows no later time. What asks to modify or to store is no such round, and is not tried again.
/// - For a full store only where, in its last phase, that member had told its coordinator so, the one of the lowest seat of those
///   whose replies counted.
/// - For a later view only where, in its last phase, that member had told its coordinator of it, the one of the lowest seat of those
///   whose replies counted that told of one.
/// - For versions that were dropped only where, in its last phase, that member had told its coordinator that it had dropped those of the
///   call's view, the one of the lowest seat of those whose replies counted; and where, in that phase or one before it, the operation had
///   begun to look back: it had asked a member for what that keeps in the view before, and no reply that counted in the phase just
///   before that told a version.
/// - What a refusal tells was true of its member when it was sent: it had come to just that stamp, or it kept so many live records, or
///   it had learnt just that later view; or it had learnt the view of the call, and had accepted a list to follow it, or did not know
///   that all stripes are kept in it, or had promised to just that ballot; or it kept the versions of later views than the call's alone.
///   A member says that its store is full only with as many live records as a brick may keep.
/// - Each answer has the word of its operation: a read is answered the data of its block, or of its m blocks, a write that it is
///   done; any may be aborted.
/// - Marks are well formed: positions and numbers rise, and only an operation that is open ends. They have no gaps: positions are
///   0, 1, 2 and so on, and are numbered 1, 2, 3 and so on, in the order in which their operations began. Each number is that of one
///   operation's marks.
pub fn every_run_keeps_the_laws()
    ensures { EveryRunKeepsTheLaws }
{}

/// No event of any run lowers the stamp below which a brick takes nothing for a stripe: the greatest of what it has promised, what it
/// has stored and what it has learnt of views never falls; in the views whose versions a brick keeps no event adds a version to a log
/// below that (Frølund et al., DSN 2004), and none replaces an order stamp by one of an earlier time. This holds for every layout and
/// every code.
pub fn no_event_lowers()
    ensures { NoEventLowers }
{}

/// A version that is lost never surfaces: where a quorum of its view takes nothing below a stamp that is above it, and fewer than m of
/// that quorum have held it, no quorum of the view has held it at any later time (Frølund et al., DSN 2004; Aguilera and Frølund
/// 2003). This holds for every assignment of members to views that the longer run follows.
pub fn no_lost_version_surfaces()
    ensures { NeverSurfaces }
{}
