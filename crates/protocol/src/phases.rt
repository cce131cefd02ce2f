//! The phases of an operation at its coordinator, and the replies that count in them.

use fab_base::{BrickId, Stamp, ViewNo};
use messages::Reply;

/// The phase that an operation is in (Frølund 2004: a read looks, and recovers where it finds no version that
/// all tell; a write orders, and then stores, or modifies where it writes one block).
#[derive(Clone, Copy, PartialEq, Eq)]
pub enum Phase {
    /// A read of a stripe has asked each member for its newest version.
    Looks,
    /// A read of this data block has asked each member for its newest version, and the member of the block's seat for its bytes.
    LooksAt(u8),
    /// A stripe write has asked each member to promise its stamp.
    Orders,
    /// A write of this data block has asked each member to promise its stamp, and for its newest version below that, and the
    /// member of the block's seat for its bytes.
    OrdersAt(u8),
    /// A recovery has asked each member to promise its stamp, and for its newest version below that.
    Recovers,
    /// A recovery that found too few blocks of a version has asked each member for its newest version below
    /// this one.
    Descends(Stamp),
    /// A recovery that found nothing in its view has asked each member of the view before for its newest version
    /// there, below this one if there is one.
    LooksBack(Option<Stamp>),
    /// A write of a data block that all members told this base has sent each of them what changes.
    Modifies {
        /// The version that the new one is made on.
        base: Stamp,
        /// The data block.
        data_block: u8,
    },
    /// A write of a data block for whose change a member was behind has asked each member for its version of this stamp, the base.
    Bases(Stamp),
    /// An operation that made a version has sent each member its block.
    Stores,
}

/// A reply that counts in the present phase.
#[derive(Drop)]
pub struct Counted {
    /// The seat of the member that sent it.
    pub seat: u8,
    /// The member.
    pub brick: BrickId,
    /// What it said.
    pub reply: Reply,
}

/// A member that told a later stamp.
#[derive(Clone, Copy, PartialEq, Eq)]
pub struct Refuser {
    /// The member's seat.
    pub seat: u8,
    /// The member.
    pub brick: BrickId,
    /// The later stamp.
    pub stamp: Stamp,
}

/// A member whose store keeps as many live records as it may.
#[derive(Clone, Copy, PartialEq, Eq)]
pub struct FullMember {
    /// The member's seat.
    pub seat: u8,
    /// The member.
    pub brick: BrickId,
    /// How many live records it keeps.
    pub live: u32,
}

/// A member that serves the operation's view no more.
#[derive(Clone, Copy, PartialEq, Eq)]
pub struct Mover {
    /// The member's seat.
    pub seat: u8,
    /// The member.
    pub brick: BrickId,
    /// The number of the later view that it has learnt, or of the one that it has accepted a list for.
    pub view: ViewNo,
}

/// A member of the view before an operation's that has dropped what it kept in it.
#[derive(Clone, Copy, PartialEq, Eq)]
pub struct Dropper {
    /// The member's seat.
    pub seat: u8,
    /// The member.
    pub brick: BrickId,
}
