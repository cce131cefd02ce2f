//! What a coordinator asks of a member.

ghost use Rattle.std.specs.Prelude.{◌≡◌, IfOk};

use fab_base::{Ballot, Bytes, Members, NoMem, Stamp};
use std::alloc::Global;

/// Which seats are to send block bytes: the member at this seat alone, or every member.
#[derive(Clone, Copy, PartialEq, Eq)]
pub enum Want {
    Seat(u8),
    All,
}

/// Which entry of a log is looked for: the newest one below this stamp, or the one of this stamp.
#[derive(Clone, Copy, PartialEq, Eq)]
pub enum Look {
    Below(Stamp),
    At(Stamp),
}

/// A version of a stripe at one member: its stamp and the member's block, which is empty where bytes were not wanted.
#[derive(Drop)]
pub struct Version {
    pub stamp: Stamp,
    pub block: Bytes,
}

impl Version {
    /// An equal value.
    pub fn copy(&self, alloc: Global) -> Result<Version, NoMem>
        ensures { IfOk result (λ made. made ≡ self.now) }
    {
        let block = self.block.copy(alloc)?;
        Ok(Version { block, ..*self })
    }
}

/// A request of one phase to one member.
#[derive(Drop)]
pub enum Request {
    /// Tell the order stamp and the newest version, and its block if you are wanted to.
    Read {
        want: Want,
    },
    /// Promise to take nothing below the operation's stamp.
    Order {
        stamp: Stamp,
    },
    /// Promise, and tell the version looked for.
    OrderRead {
        stamp: Stamp,
        look: Look,
        want: Want,
    },
    /// Store the member's block of the version of this stamp.
    Write {
        stamp: Stamp,
        block: Bytes,
    },
    /// Store a version that differs from its base in one data block. The delta is by what that block changes; empty for the
    /// other data seats.
    Modify {
        stamp: Stamp,
        base: Stamp,
        data_block: u8,
        delta: Bytes,
    },
    /// A quorum holds the version of this stamp: those below may be dropped.
    Collect {
        stamp: Stamp,
    },
    /// Tell the newest version of the view before, below the bound if there is one.
    OldRead {
        bound: Option<Stamp>,
    },
    /// Promise to accept no list of members under a lower ballot.
    Prepare {
        ballot: Ballot,
    },
    /// Accept this list of members as the view's successor.
    Accept {
        ballot: Ballot,
        members: Members,
    },
}
