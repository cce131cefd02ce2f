//! Seats, and a member of a group at its seat.

ghost use Rattle.std.specs.Prelude.{◌≡◌, ◌<◌, ◌≤◌, IfSome, length};
ghost use Rattle.fab_base.specs.Layouts.{seat_in};
ghost use Rattle.protocol.specs.Replicas.{is_changed};

use fab_base::BrickId;
use std::marker::Model;

/// The member at this seat of a group whose stripes have `m` data blocks of `block` bytes.
#[derive(Clone, Copy)]
pub(crate) struct Member {
    pub m: u8,
    pub seat: u8,
    pub block: u16,
}

impl Model for Member {
    ghost use Rattle.replica.specs.Members.{Member, IsMember};

    ghost Value = { Member };

    ghost view = { λ member. record { m = member.m; seat = member.seat; block = member.block } };

    ghost invariant = { λ member. IsMember member.m member.seat member.block };

    ghost inverse = { λ member. record { m = member.m; seat = member.seat; block = member.block } };
}

/// Whether the block at a seat changes with a data block, of which there are m: it is that block, or a parity block.
pub(crate) fn is_changed(m: u8, data_block: u8, seat: u8) -> bool
    ensures { result ≡ is_changed m data_block seat }
{
    seat == data_block || seat >= m
}

impl Member {
    /// Whether its block changes with a data block.
    pub fn is_changed(self, data_block: u8) -> bool
        ensures { result ≡ is_changed self.m data_block self.seat }
    {
        is_changed(self.m, data_block, self.seat)
    }
}

/// The seat of a brick among members, of which there are at most 32: the first if there are several, and none if it is no member.
pub(crate) fn seat_of(members: &[BrickId], brick: BrickId) -> Option<u8>
    requires { length members.now ≤ 32 }
    ensures seat { result ≡ seat_in members.now brick.0 }
    ensures few { IfSome result (λ seat. seat < 32) }
{
    for (seat, member) in members.iter().enumerate() {
        if member.0 == brick.0 {
            return Some(seat as u8);
        }
    }
    None
}
