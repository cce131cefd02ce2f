//! What a brick must find to begin an operation, or a scrub.

ghost use Rattle.std.specs.Prelude.{◌≡◌, ◌≤◌, ◌&&◌, ℕ, true, nat_eq, length, Some, is_some};
ghost use Rattle.std.specs.List.{list_all};
ghost use Rattle.fab_base.specs.Layouts.{seat_in};
ghost use Rattle.quorum.specs.Quorums.{IsWithinLimits};
ghost use Rattle.protocol.specs.Coordinators.{AreEnough};
ghost use Rattle.protocol.specs.Scrubs.{names_quorum};
ghost use Rattle.protocol.specs.Settings.{are_bytes};
ghost use Rattle.protocol.specs.Nodes.{has_block, has_length, has_later_time};

use fab_base::{BrickId, Members, Op};
use quorum::{Policy, are_distinct};

/// Whether the data block that is asked for is one of the m data blocks.
pub(crate) fn has_block(m: u8, op: &Op) -> bool
    ensures { result ≡ has_block m op.now }
{
    match op {
        Op::ReadBlock(block) | Op::WriteBlock(block, _) => *block < m,
        Op::ReadStripe | Op::WriteStripe(_) => true,
    }
}

/// Whether there are this many bytes.
fn has_count(bytes: &[u8], count: usize) -> bool
    ensures { result ≡ (are_bytes bytes.now && nat_eq (length bytes.now) count) }
{
    bytes.len() == count
}

/// Whether the bytes to write are one block, or m blocks.
pub(crate) fn has_length(m: u8, block: u16, op: &Op) -> bool
    ensures { result ≡ has_length m block op.now }
{
    match op {
        Op::ReadBlock(_) | Op::ReadStripe => true,
        Op::WriteBlock(_, bytes) => has_count(bytes.as_slice(), block as usize),
        Op::WriteStripe(bytes) => has_count(bytes.as_slice(), m as usize * block as usize),
    }
}

/// Whether a time is left above the greatest that is known.
pub(crate) fn has_later_time(known: u64) -> bool
    ensures { result ≡ has_later_time known }
{
    known < u64::MAX
}

/// Whether a brick is one of these members.
fn is_member(members: &[BrickId], brick: BrickId) -> bool
    ensures { result ≡ is_some (seat_in members.now brick.0) }
{
    members.iter().any(|member| member.0 == brick.0)
}

/// Whether each of these bricks is one of the members.
fn are_members(members: &[BrickId], bricks: &[BrickId]) -> bool
    ensures { result ≡ list_all (λ brick. is_some (seat_in members.now brick.0)) bricks.now }
{
    bricks.iter().all(|brick| is_member(members, *brick))
}

/// Whether a list names distinct members of a group of `m` data blocks, and at least a quorum of it.
pub(crate) fn names_quorum(m: u8, members: &Members, named: &[BrickId]) -> bool
    requires { IsWithinLimits m (length members.now) }
    ensures value { (stripes : ℕ) → result ≡ names_quorum (record { members = members.now; m = m; stripes = stripes }) named.now }
    ensures enough { (stripes : ℕ) → result ≡ true → AreEnough (record { members = members.now; m = m; stripes = stripes }) (Some named.now) }
{
    let members = members.as_slice();
    match Policy::new(m, members.len() as u8) {
        Some(policy) => {
            are_distinct(named)
                && are_members(members, named)
                && named.len() >= usize::from(policy.q())
        }
        None => unreachable!(),
    }
}
