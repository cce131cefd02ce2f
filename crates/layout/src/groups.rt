//! Groups.

ghost use Rattle.std.specs.Prelude.{◌≡◌, ◌↔◌, ◌<◌, IsSome, IfSome, length};
ghost use Rattle.fab_base.specs.Layouts.{seat_in, first_view};
ghost use Rattle.quorum.specs.Quorums.{IsWithinLimits, quorum_of};

use fab_base::{BrickId, Members, View};
use quorum::Policy;
use std::marker::Model;

/// A group: stripes that are kept by the same members, within the limits of a quorum.
#[derive(Drop)]
pub struct Group {
    members: Members,
    policy: Policy,
    stripes: u32,
}

impl Model for Group {
    ghost use Rattle.std.specs.Prelude.{◌≡◌, length};
    ghost use Rattle.fab_base.specs.Layouts.{Group};

    ghost Value = { Group };

    ghost view = { λ group. record { members = group.members; m = group.policy.m; stripes = group.stripes } };

    ghost invariant = { λ group. group.policy.n ≡ length group.members };
}

impl Group {
    /// A group of these members, by seat, whose stripes have m data blocks. None exactly outside the limits
    /// 1 <= m <= 16, m <= n <= 32 for n members.
    pub fn new(members: Members, m: u8, stripes: u32) -> Option<Group>
        ensures limits { IsSome result ↔ IsWithinLimits m (length members) }
        ensures value { IfSome result (λ group. group ≡ record { members = members; m = m; stripes = stripes }) }
    {
        let seats = members.as_slice().len() as u8;
        let policy = Policy::new(m, seats)?;
        Some(Group {
            members,
            policy,
            stripes,
        })
    }

    /// An equal value.
    pub fn copy(&self) -> Group
        ensures { result ≡ self.now }
    {
        Group {
            members: self.members.copy(),
            policy: self.policy,
            stripes: self.stripes,
        }
    }

    /// The members, by seat.
    pub fn members(&self) -> &Members
        ensures { result.now ≡ self.now.members }
    {
        &self.members
    }

    /// The seat of a brick among the members, the first if there are several. None where it is no member.
    pub fn seat_of(&self, brick: BrickId) -> Option<u8>
        ensures seat { result ≡ seat_in self.now.members brick.0 }
        ensures within { IfSome result (λ seat. seat < length self.now.members) }
    {
        for (seat, member) in self.members.as_slice().iter().enumerate() {
            if member.0 == brick.0 {
                return Some(seat as u8);
            }
        }
        None
    }

    /// The sizes of its view and of its quorums.
    pub fn policy(&self) -> Policy
        ensures m { result.m ≡ self.now.m }
        ensures n { result.n ≡ length self.now.members }
        ensures limits { IsWithinLimits self.now.m (length self.now.members) }
    {
        // The call tells the proof the policy's limits, which `policy` promises.
        let _ = self.policy.m();
        self.policy
    }

    /// View 1, with the group's members.
    pub fn first_view(&self) -> View
        ensures view { result ≡ first_view self.now.members }
        ensures limits { IsWithinLimits self.now.m (length self.now.members) }
    {
        // The call tells the proof the policy's limits.
        let _ = self.policy.m();
        View::first(self.members.copy())
    }

    /// How many data blocks a stripe has.
    pub fn m(&self) -> u8
        ensures { result ≡ self.now.m }
    {
        self.policy.m()
    }

    /// How many members make a quorum.
    pub fn quorum(&self) -> u8
        ensures { result ≡ quorum_of self.now }
    {
        self.policy.q()
    }

    /// How many stripes there are.
    pub fn stripes(&self) -> u32
        ensures { result ≡ self.now.stripes }
    {
        self.stripes
    }
}
