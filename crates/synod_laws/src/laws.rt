//! The law of agreement. The call does nothing: its contract is the law.

ghost use Rattle.synod_laws.specs.Synods.{ChosenStaysChosen, EveryRunAgrees, QuorumsAreMajorities, SomeRunChooses};

/// In every run of allowed steps, two values that are chosen are equal, and what is chosen stays chosen. Some run chooses, whichever the value.
///
/// Seats promise to ballots and vote under them. There may be any number of seats, and a quorum is any number of them above half, as the quorums of a view are.
/// A ballot is proposed with one value at most, after a quorum has promised to it: with the value of the greatest ballot for which these seats tell a vote, or
/// with any value if they tell none. What a quorum voted for under one ballot is chosen (Lamport, "The Part-Time Parliament", ACM TOCS 1998, and "Paxos Made
/// Simple", 2001). There are no messages in this and no stops: a promise or a vote counts from the step in which it is made.
///
/// Why: what a ballot is proposed with is safe there. That says of each lower ballot that it was proposed with the same value, or is barred: it is past for so
/// many seats without a vote that no quorum can vote under it. For below the greatest vote told, that value was safe already; and between that vote and the new
/// ballot no seat of the quorum that promised has voted, or ever will. A barred ballot chooses nothing, since two quorums share a seat.
pub fn two_chosen_agree()
    ensures quorums { QuorumsAreMajorities }
    ensures agree { EveryRunAgrees }
    ensures stays { ChosenStaysChosen }
    ensures chooses { SomeRunChooses }
{}
