//! What a member answers to a coordinator.

ghost use Rattle.std.specs.Prelude.{◌≡◌, IfOk};

use crate::requests::Version;
use fab_base::{Ballot, Boxed, Members, NoMem, Stamp, ViewNo};
use std::alloc::Global;

/// The members of a view, and those of the view before.
#[derive(Drop)]
pub struct Lineage {
    pub members: Members,
    pub prior: Members,
}

impl Lineage {
    /// An equal value.
    pub fn copy(&self) -> Lineage
        ensures { result ≡ self.now }
    {
        let (members, prior) = (self.members.copy(), self.prior.copy());
        Lineage { members, prior }
    }
}

/// A list of members that was accepted as a view's successor, under this ballot.
#[derive(Drop)]
pub struct Choice {
    pub ballot: Ballot,
    pub members: Members,
}

impl Choice {
    /// An equal value.
    pub fn copy(&self) -> Choice
        ensures { result ≡ self.now }
    {
        let members = self.members.copy();
        Choice { members, ..*self }
    }
}

/// A member's reply to a request.
#[derive(Drop)]
pub enum Reply {
    /// To a Read: the order stamp, and the newest version if there is one.
    Found {
        order: Stamp,
        newest: Option<Version>,
    },
    /// To an Order: promised.
    Ordered,
    /// To an OrderRead: promised, and the version that was found.
    OrderedRead {
        found: Option<Version>,
    },
    /// To a Write or Modify: the version is held.
    Stored,
    /// To a Modify: the newest version here, of this stamp, is another than the base.
    Behind {
        newest: Option<Stamp>,
    },
    /// This later stamp was promised or stored here.
    Later {
        stamp: Stamp,
    },
    /// The store, which holds so many live records, has no room for another one.
    Full {
        live: u32,
    },
    /// This later view was accepted here, or learnt with its members.
    Moved {
        view: ViewNo,
        lineage: Option<Boxed<Lineage>>,
    },
    /// To an OldRead: the version that was found.
    Old {
        found: Option<Version>,
    },
    /// To an OldRead: the old view's versions were dropped.
    Retired,
    /// To a Prepare: promised, and what was accepted before.
    Promise {
        accepted: Option<Choice>,
    },
    /// To an Accept: accepted.
    Accepted,
    /// To a Prepare or Accept: this greater ballot was promised.
    Outbid {
        ballot: Ballot,
    },
    /// To a Prepare or Accept: the view's stripes are not all there yet.
    NotSynced,
}

impl Reply {
    /// An equal value.
    pub fn copy(&self, alloc: Global) -> Result<Reply, NoMem>
        ensures { IfOk result (λ made. made ≡ self.now) }
    {
        Ok(match self {
            Reply::Found { order, newest } => Reply::Found {
                order: *order,
                newest: newest.as_ref().map(|held| held.copy(alloc)).transpose()?,
            },
            Reply::Ordered => Reply::Ordered,
            Reply::OrderedRead { found } => Reply::OrderedRead {
                found: found.as_ref().map(|held| held.copy(alloc)).transpose()?,
            },
            Reply::Stored => Reply::Stored,
            Reply::Behind { newest } => Reply::Behind { newest: *newest },
            Reply::Later { stamp } => Reply::Later { stamp: *stamp },
            Reply::Full { live } => Reply::Full { live: *live },
            Reply::Moved { view, lineage } => Reply::Moved {
                view: *view,
                lineage: lineage
                    .as_ref()
                    .map(|known| Boxed::new(alloc, known.get().copy()))
                    .transpose()?,
            },
            Reply::Old { found } => Reply::Old {
                found: found.as_ref().map(|held| held.copy(alloc)).transpose()?,
            },
            Reply::Retired => Reply::Retired,
            Reply::Promise { accepted } => Reply::Promise {
                accepted: accepted.as_ref().map(Choice::copy),
            },
            Reply::Accepted => Reply::Accepted,
            Reply::Outbid { ballot } => Reply::Outbid { ballot: *ballot },
            Reply::NotSynced => Reply::NotSynced,
        })
    }
}
