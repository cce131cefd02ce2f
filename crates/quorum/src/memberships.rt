//! Lists of members that may keep a group.

ghost use Rattle.std.specs.Prelude.{◌≡◌, nat_lt};
ghost use Rattle.std.specs.List.{list_all};
ghost use Rattle.quorum.specs.Memberships.{stands_in, are_distinct, is_membership, MembershipsHaveQuorums};

use fab_base::BrickId;

/// Whether a brick is one of these.
fn stands_in(bricks: &[BrickId], brick: BrickId) -> bool
    ensures { result ≡ stands_in bricks.now brick }
{
    bricks.iter().any(|other| brick.0 == other.0)
}

/// Whether no brick stands twice.
pub fn are_distinct(bricks: &[BrickId]) -> bool
    ensures { result ≡ are_distinct bricks.now }
{
    for (place, brick) in bricks.iter().enumerate() {
        if stands_in(&bricks[place + 1..], *brick) {
            return false;
        }
    }
    true
}

/// Whether each of these bricks is one of a disk of `bricks` bricks.
fn are_of_disk(bricks: u16, members: &[BrickId]) -> bool
    ensures { result ≡ list_all (λ brick. nat_lt brick.0 bricks) members.now }
{
    members.iter().all(|brick| brick.0 < bricks)
}

/// Whether these members may keep a group of `m` data blocks on a disk of `bricks` bricks: `m` to 32 distinct bricks, each of them the disk's.
#[tactic(auto, unfolding(crate::specs::Memberships::is_membership))]
pub fn is_membership(m: u8, bricks: u16, members: &[BrickId]) -> bool
    ensures { result ≡ is_membership m bricks members.now }
{
    if members.len() < usize::from(m) || members.len() > 32 {
        return false;
    }
    are_distinct(members) && are_of_disk(bricks, members)
}

/// A list that may keep a group is within the limits of a quorum. The call does nothing: its contract is the law.
pub fn memberships_have_quorums()
    ensures { MembershipsHaveQuorums }
{}
