//! Versions that the replies of a phase tell, and their content.

ghost use Rattle.std.specs.Prelude.{◌≡◌, length, map, IfOk};
ghost use Rattle.std.specs.List.{concat};
ghost use Rattle.protocol.specs.Coordinators.{told_stamp, finds, found_bytes, pieces_at, bytes_at, has_seat, tells, all_tell};

use crate::operations::Operation;
use fab_base::{Bytes, NoMem, Stamp};
use messages::Reply;
use protocol::Counted;
use std::alloc::Global;

/// The stamp of the version that a reply tells, if it tells one.
pub fn told_stamp(reply: &Reply) -> Option<Stamp>
    ensures { result ≡ told_stamp reply.now }
{
    match reply {
        Reply::Found {
            newest: Some(version),
            ..
        }
        | Reply::OrderedRead {
            found: Some(version),
        }
        | Reply::Old {
            found: Some(version),
        } => Some(version.stamp),
        _ => None,
    }
}

/// Whether a reply tells this version.
fn finds(counted: &Counted, version: Stamp) -> bool
    ensures { result ≡ finds version counted.now }
{
    match &counted.reply {
        Reply::Found {
            newest: Some(found),
            ..
        }
        | Reply::OrderedRead { found: Some(found) }
        | Reply::Old { found: Some(found) } => found.stamp.is_same(version),
        _ => false,
    }
}

/// The bytes of the version that a reply tells; none where it tells no version.
fn found_bytes(reply: &Reply) -> &[u8]
    ensures { result.now ≡ found_bytes reply.now }
{
    match reply {
        Reply::Found {
            newest: Some(found),
            ..
        }
        | Reply::OrderedRead { found: Some(found) }
        | Reply::Old { found: Some(found) } => found.block.as_slice(),
        _ => &[],
    }
}

/// Whether a reply tells this version as its member's newest, and no order above it.
fn is_told(version: Stamp, reply: &Reply) -> bool
    ensures { result ≡ tells version reply.now }
{
    match reply {
        Reply::Found {
            order,
            newest: Some(newest),
        } => newest.stamp.is_same(version) && !version.is_below(*order),
        _ => false,
    }
}

/// Whether all replies tell this version as their members' newest, and no order above it.
fn is_told_by_all(version: Stamp, counted: &[Counted]) -> bool
    ensures { result ≡ all_tell version counted.now }
{
    for reply in counted {
        if !is_told(version, &reply.reply) {
            return false;
        }
    }
    true
}

/// Whether a seat is among those of the replies.
fn has_seat(seat: u8, counted: &[Counted]) -> bool
    ensures { result ≡ has_seat seat counted.now }
{
    for reply in counted {
        if reply.seat == seat {
            return true;
        }
    }
    false
}

/// The bytes that the reply of a seat tells; none where it has no reply.
fn bytes_at(seat: u8, counted: &[Counted]) -> &[u8]
    ensures { result.now ≡ bytes_at seat counted.now }
{
    for reply in counted {
        if reply.seat == seat {
            return found_bytes(&reply.reply);
        }
    }
    &[]
}

/// The seats of the replies that tell this version.
fn seats_finding(alloc: Global, counted: &[Counted], version: Stamp) -> Result<Vec<u8>, NoMem>
    ensures { IfOk result (λ seats. seats.items ≡ map (λ piece. piece.seat) (pieces_at version counted.now)) }
{
    let mut seats = Vec::new(alloc);
    for reply in counted {
        if !finds(reply, version) {
            continue;
        }
        seats.push(reply.seat)?;
    }
    Ok(seats)
}

/// The blocks of this version that the replies tell, one after the other.
fn blocks_finding(alloc: Global, counted: &[Counted], version: Stamp) -> Result<Vec<u8>, NoMem>
    ensures { IfOk result (λ blocks. blocks.items ≡ concat (map (λ piece. piece.bytes) (pieces_at version counted.now))) }
{
    let mut blocks = Vec::new(alloc);
    for reply in counted {
        if !finds(reply, version) {
            continue;
        }
        blocks.extend_from_slice(found_bytes(&reply.reply))?;
    }
    Ok(blocks)
}

impl Operation {
    ghost use Rattle.std.specs.Prelude.{◌≡◌, ◌≤◌, ◌*◌, true, IfOk, IfSome, MatchOption, length};
    ghost use Rattle.fab_base.specs.declared.stamps.Stamp.{Stamp};
    ghost use Rattle.coord_phase.specs.Operations.{wants_all};
    ghost use Rattle.coord_phase.specs.Tallies.{IsAgreed};
    ghost use Rattle.protocol.specs.Coordinators.{pieces_at, bytes_at, all_tell, fast_version, fast_version_at, common_version, common_version_at};
    ghost use Rattle.stripe_code.specs.Codes.{block_code};

    /// How many blocks of a version the replies tell.
    pub fn blocks_of(&self, version: Stamp) -> usize
        ensures { result ≡ length (pieces_at version self.now.state.counted) }
    {
        self.replies.count_telling(version)
    }

    /// The version that all replies tell. None exactly where they do not, or there is no reply.
    fn agreed(&self) -> Option<Stamp>
        ensures agreed { MatchOption result ((v : Stamp) → ¬ (IsAgreed self.now.state.counted v)) (IsAgreed self.now.state.counted) }
        ensures value { result ≡ common_version self.now.state.counted }
    {
        self.replies.agreed()
    }

    /// The version that a read may answer at once: the one that all replies tell, with no order above it.
    pub fn fast_version(&self) -> Option<Stamp>
        ensures value { result ≡ fast_version self.now.state.counted }
        ensures all { IfSome result (λ version. all_tell version self.now.state.counted ≡ true) }
    {
        match self.agreed() {
            None => None,
            Some(version) => {
                if is_told_by_all(version, self.counted()) {
                    Some(version)
                } else {
                    None
                }
            }
        }
    }

    /// The same, for a read of the data block of this seat, which has to have replied.
    #[tactic(auto, unfolding(protocol::specs::Coordinators::fast_version_at))]
    pub fn fast_version_at(&self, seat: u8) -> Option<Stamp>
        ensures { result ≡ fast_version_at seat self.now.state.counted }
    {
        if !has_seat(seat, self.counted()) {
            return None;
        }
        self.fast_version()
    }

    /// The version that all replies tell, for a write of the data block of this seat, which has to have replied.
    #[tactic(auto, unfolding(protocol::specs::Coordinators::common_version_at))]
    pub fn common_version_at(&self, seat: u8) -> Option<Stamp>
        ensures { result ≡ common_version_at seat self.now.state.counted }
    {
        if !has_seat(seat, self.counted()) {
            return None;
        }
        self.agreed()
    }

    /// The bytes that the reply of a seat tells; none where it has no reply.
    pub fn bytes_at(&self, seat: u8) -> &[u8]
        ensures { result.now ≡ bytes_at seat self.now.state.counted }
    {
        bytes_at(seat, self.counted())
    }

    /// The content of a version, by the first m of its blocks that the replies tell, in the order in which they came. Any
    /// other m give the same.
    pub fn content_of(&self, alloc: Global, version: Stamp) -> Result<Bytes, NoMem>
        requires whole { wants_all self.now.state.phase ≡ true }
        requires enough { self.now.state.group.m ≤ length (pieces_at version self.now.state.counted) }
        ensures value { IfOk result (λ content. content ≡ (block_code self.now.block).decode self.now.state.group.m
            (pieces_at version self.now.state.counted)) }
        ensures long { IfOk result (λ content. length content ≡ self.now.state.group.m * self.now.block) }
    {
        let m = self.asked().policy().m();
        let seats = seats_finding(alloc, self.replies.as_slice(), version)?;
        let blocks = blocks_finding(alloc, self.replies.as_slice(), version)?;
        let long = m as usize * self.block as usize;
        stripe_code::decode(alloc, m, self.block, &seats[..m as usize], &blocks[..long])
    }
}
