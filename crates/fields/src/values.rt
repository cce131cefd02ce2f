//! Names, stamps, ballots, lists of members and views.

ghost use Rattle.std.specs.Prelude.{◌≡◌, ◌≤◌};
ghost use Rattle.fields.specs.Reading.{Gives, times_at};
ghost use Rattle.fields.specs.Values.{brick_codec, group_codec, stripe_codec, view_number_codec, stamp_codec, ballot_codec, members_codec, view_codec};

use crate::codecs::Field;
use crate::readers::{Malformed, Reader};
use crate::take_fields;
use fab_base::{Ballot, BrickId, GroupId, Members, NoMem, Stamp, StripeNo, View, ViewNo};

impl Field for BrickId {
    ghost codec = { brick_codec };

    fn put(&self, out: &mut Vec<u8>) -> Result<(), NoMem> {
        self.0.put(out)
    }

    fn take(from: &mut Reader<'_>) -> Result<BrickId, Malformed> {
        Ok(BrickId(from.take()?))
    }
}

impl Field for GroupId {
    ghost codec = { group_codec };

    fn put(&self, out: &mut Vec<u8>) -> Result<(), NoMem> {
        self.0.put(out)
    }

    fn take(from: &mut Reader<'_>) -> Result<GroupId, Malformed> {
        Ok(GroupId(from.take()?))
    }
}

impl Field for StripeNo {
    ghost codec = { stripe_codec };

    fn put(&self, out: &mut Vec<u8>) -> Result<(), NoMem> {
        self.0.put(out)
    }

    fn take(from: &mut Reader<'_>) -> Result<StripeNo, Malformed> {
        Ok(StripeNo(from.take()?))
    }
}

impl Field for ViewNo {
    ghost codec = { view_number_codec };

    fn put(&self, out: &mut Vec<u8>) -> Result<(), NoMem> {
        self.0.put(out)
    }

    fn take(from: &mut Reader<'_>) -> Result<ViewNo, Malformed> {
        Ok(ViewNo(from.take()?))
    }
}

#[tactic(auto, unfolding(crate::specs::Values::stamp_fields))]
impl Field for Stamp {
    ghost codec = { stamp_codec };

    fn put(&self, out: &mut Vec<u8>) -> Result<(), NoMem> {
        (self.view, (self.time, (self.brick, self.boot))).put(out)
    }

    fn take(from: &mut Reader<'_>) -> Result<Stamp, Malformed> {
        Ok(take_fields!(from; Stamp { view, time, brick, boot }))
    }
}

#[tactic(auto, unfolding(crate::specs::Values::ballot_fields))]
impl Field for Ballot {
    ghost codec = { ballot_codec };

    fn put(&self, out: &mut Vec<u8>) -> Result<(), NoMem> {
        (self.round, (self.brick, self.boot)).put(out)
    }

    fn take(from: &mut Reader<'_>) -> Result<Ballot, Malformed> {
        Ok(take_fields!(from; Ballot { round, brick, boot }))
    }
}

/// A count from 1 to 32, and each brick.
#[tactic(auto, using(crate::proofs::Writings::joined), unfolding(crate::specs::Values::members_fields))]
impl Field for Members {
    ghost codec = { members_codec };

    fn put(&self, out: &mut Vec<u8>) -> Result<(), NoMem> {
        let bricks = self.as_slice();
        (bricks.len() as u8).put(out)?;
        for brick in bricks {
            brick.put(out)?;
        }
        Ok(())
    }

    fn take(from: &mut Reader<'_>) -> Result<Members, Malformed> {
        let left = from.rest.len();
        let count = from.take()?;
        if count < 1 || count > 32 {
            return Err(Malformed { left });
        }
        take_bricks(count, from)
    }
}

/// So many bricks, at most 32.
fn take_bricks(count: u8, from: &mut Reader<'_>) -> Result<Members, Malformed>
    requires { count ≤ 32 }
    ensures { Gives result from.new.rest.now (times_at brick_codec.read count from.old.rest.now) }
{
    let mut bricks = [BrickId(0); 32];
    for seat in 0..usize::from(count) {
        let brick = from.take()?;
        bricks[seat] = brick;
    }
    Ok(Members::new(&bricks[..usize::from(count)]).unwrap())
}

/// The number, the members, and the members of the view before.
#[tactic(auto, using(crate::proofs::Writings::joined), unfolding(crate::specs::Values::view_fields))]
impl Field for View {
    ghost codec = { view_codec };

    fn put(&self, out: &mut Vec<u8>) -> Result<(), NoMem> {
        self.number.put(out)?;
        self.members.put(out)?;
        self.prior.put(out)
    }

    fn take(from: &mut Reader<'_>) -> Result<View, Malformed> {
        Ok(take_fields!(from; View { number, members, prior }))
    }
}
