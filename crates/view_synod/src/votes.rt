//! What an acceptor answers.

use fab_base::{Ballot, Members, View};

/// An acceptor's answer to a Prepare or Accept.
#[derive(Drop)]
pub enum Vote {
    /// To a Prepare: it accepts nothing under a lesser ballot any more. It tells the list that it accepted last, with its ballot.
    Promise(Option<(Ballot, Members)>),
    /// To an Accept: it has accepted the list.
    Accepted,
    /// It has promised to this greater ballot.
    Outbid(Ballot),
    /// It has learnt this later view.
    Moved(View),
    /// The stripes are not all known to be in the view yet.
    NotSynced,
}
