//! Lists of members, and views.

ghost use Rattle.std.specs.Prelude.{◌≡◌, ◌<◌, ◌≤◌, ◌↔◌, [], length, IsSome, IfSome};
ghost use Rattle.fab_base.specs.Layouts.{first_view};

use crate::identities::{BrickId, ViewNo};
use std::marker::Model;

/// At most 32 bricks in the order of their seats, in fixed room.
#[derive(Drop)]
pub struct Members {
    seats: [BrickId; 32],
    count: u8,
}

impl Model for Members {
    ghost use Rattle.std.specs.Prelude.{List, ◌≤◌, take};
    ghost use Rattle.fab_base.specs.declared.identities.BrickId.{BrickId};

    ghost Value = { List BrickId };

    ghost view = { λ members. take members.count members.seats };

    ghost invariant = { λ members. members.count ≤ 32 };
}

impl Members {
    /// No bricks.
    pub fn none() -> Members
        ensures { result ≡ [] }
    {
        Members {
            seats: [BrickId(0); 32],
            count: 0,
        }
    }

    /// These bricks, in this order. None exactly where there are more than 32.
    pub fn new(bricks: &[BrickId]) -> Option<Members>
        ensures room { IsSome result ↔ (length bricks.now ≤ 32) }
        ensures bricks { IfSome result (λ members. members ≡ bricks.now) }
    {
        if bricks.len() > 32 {
            return None;
        }
        let mut seats = [BrickId(0); 32];
        seats[..bricks.len()].copy_from_slice(bricks);
        let count = bricks.len() as u8;
        Some(Members { seats, count })
    }

    /// An equal value.
    pub fn copy(&self) -> Members
        ensures { result ≡ self.now }
    {
        Members {
            seats: self.seats,
            count: self.count,
        }
    }

    /// The bricks, by seat.
    pub fn as_slice(&self) -> &[BrickId]
        ensures value { result.now ≡ self.now }
        ensures small { length result.now ≤ 32 }
    {
        &self.seats[..usize::from(self.count)]
    }
}

/// A numbered list of members that keep a group, with the list before it (none before view 1).
#[derive(Drop)]
pub struct View {
    /// The view's number, from 1.
    pub number: ViewNo,
    /// The members, by seat.
    pub members: Members,
    /// The members of the view before, by seat.
    pub prior: Members,
}

impl View {
    /// View 1 of a group of these members: none were before them.
    pub fn first(members: Members) -> View
        ensures { result ≡ first_view members }
    {
        View {
            number: ViewNo(1),
            members,
            prior: Members::none(),
        }
    }

    /// An equal value.
    pub fn copy(&self) -> View
        ensures { result ≡ self.now }
    {
        View {
            number: self.number,
            members: self.members.copy(),
            prior: self.prior.copy(),
        }
    }
}
