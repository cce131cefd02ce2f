//! Whether an operation may run alone among some bricks.

ghost use Rattle.std.specs.Prelude.{◌≡◌, ◌&&◌, ◌+◌, true, ◌<◌, ◌≤◌, ℕ, map, nat_lt, nat_le, nat_eq, length, filter, is_some, slice_get, Some};
ghost use Rattle.std.specs.List.{IsDistinct, list_any};
ghost use Rattle.std.specs.Bool.{Decides};
ghost use Rattle.std.specs.Option.{option_copied};
ghost use Rattle.quorum.specs.Quorums.{q_of};
ghost use Rattle.fab_base.specs.Layouts.{most_groups, seat_in};
ghost use Rattle.protocol.specs.Calms.{IsEarly};
ghost use Rattle.node.specs.Running.{state_of};
ghost use Rattle.world.specs.Shown.{NodeIsAble, NodeIsInTime, Serves, running_at, clock_at, node_knows_synced, may_ask_prior_at};

use crate::bricks::{Brick, Power};
use crate::histories::{OperationRecord, record_at};
use crate::simulations::Simulation;
use fab_base::{GroupId, Members, View, ViewNo};
use fab_disk::MemDisk;
use layout::Layout;
use node::Node;

/// The times at which an operation may run alone are below this one.
const LATE: u64 = 1 << 63;

/// A brick that runs, by its number. None where there is none.
pub fn running<'b>(bricks: &'b [Brick], number: u64) -> Option<&'b Node<MemDisk>>
    ensures { option_copied result ≡ running_at bricks.now number }
{
    if number >= bricks.len() as u64 {
        return None;
    }
    match &bricks[number as usize].power {
        Power::Up(node) => Some(node),
        Power::Down(_) => None,
    }
}

/// Whether every time that a brick knows, or keeps in a stamp, is early.
#[tactic(auto, unfolding(node::specs::Running::state_of))]
fn is_early(node: &Node<MemDisk>) -> bool
    ensures { Decides result (IsEarly (state_of node.now)) }
{
    let store = node.store();
    // It tells that the stripes stand in order.
    let _ = store.is_halted();
    node.known_time().max(store.top_time()) < LATE
}

/// Whether a brick serves a view of a group: it has learnt that and no later one, and has accepted no list to follow it.
fn serves(node: &Node<MemDisk>, group: GroupId, view: ViewNo) -> bool
    requires { group.0 < most_groups }
    ensures { Decides result (Serves (state_of node.now) group.0 view.0) }
{
    let store = node.store();
    if store.learnt(group).0 != view.0 {
        return false;
    }
    if view.0 == u32::MAX {
        return true;
    }
    store.accepted(group).is_none()
}

/// Whether a brick has room for two records more.
fn has_room(node: &Node<MemDisk>, layout: &Layout) -> bool
    ensures { Decides result ((state_of node.now).live + 2 ≤ layout.now.records) }
{
    u64::from(node.store().live()) + 2 <= u64::from(layout.records())
}

/// Whether a brick is up, serves a view of a group, has room for two records more, and its times are early.
fn is_able(bricks: &[Brick], layout: &Layout, group: GroupId, view: ViewNo, number: u64) -> bool
    requires { group.0 < most_groups }
    ensures { Decides result (NodeIsAble layout.now group.0 view.0 (running_at bricks.now number)) }
{
    match running(bricks, number) {
        Some(node) => serves(node, group, view) && has_room(node, layout) && is_early(node),
        None => false,
    }
}

/// Whether all these bricks are up, serve a view of a group, have room, and their times are early.
fn are_able(
    bricks: &[Brick],
    layout: &Layout,
    group: GroupId,
    view: ViewNo,
    numbers: &[u64],
) -> bool
    requires { group.0 < most_groups }
    ensures { Decides result ((k number : ℕ) → slice_get numbers.now k ≡ Some number
        → NodeIsAble layout.now group.0 view.0 (running_at bricks.now number)) }
{
    for number in numbers {
        if !is_able(bricks, layout, group, view, *number) {
            return false;
        }
    }
    true
}

/// Whether a brick is up and knows that all stripes of a group are kept in the view that it has learnt.
fn knows_synced(bricks: &[Brick], group: GroupId, number: u64) -> bool
    requires { group.0 < most_groups }
    ensures { result ≡ node_knows_synced group.0 (running_at bricks.now number) }
{
    match running(bricks, number) {
        Some(node) => match node.store().known_view(group) {
            Some((_, synced)) => synced,
            None => true,
        },
        None => false,
    }
}

/// Whether one of these bricks knows that all stripes of a group are kept in the view that it has learnt.
fn one_knows_synced(bricks: &[Brick], group: GroupId, numbers: &[u64]) -> bool
    requires { group.0 < most_groups }
    ensures { result ≡ list_any (λ number. node_knows_synced group.0 (running_at bricks.now number)) numbers.now }
{
    numbers
        .iter()
        .any(|number| knows_synced(bricks, group, *number))
}

/// Whether an operation in a view may have to ask the members of the view before: it is a later view than 1, and none of these bricks knows that all stripes of
/// the group are kept in that.
fn may_ask_prior(bricks: &[Brick], group: GroupId, view: ViewNo, numbers: &[u64]) -> bool
    requires { group.0 < most_groups }
    ensures { result ≡ may_ask_prior_at bricks.now group.0 view.0 numbers.now }
{
    view.0 > 1 && !one_knows_synced(bricks, group, numbers)
}

/// What the clock of a brick reads, 0 where there is none.
fn clock_of(bricks: &[Brick], number: u64) -> u64
    ensures { result ≡ clock_at bricks.now number }
{
    if number >= bricks.len() as u64 {
        return 0;
    }
    bricks[number as usize].clock
}

/// Whether the clock of a brick that is up, and all its times, are early.
fn is_in_time(bricks: &[Brick], number: u64) -> bool
    ensures { Decides result (NodeIsInTime (clock_at bricks.now number) (running_at bricks.now number)) }
{
    match running(bricks, number) {
        Some(node) => clock_of(bricks, number) < LATE && is_early(node),
        None => false,
    }
}

/// Whether no number stands twice.
fn are_distinct(numbers: &[u64]) -> bool
    ensures { Decides result (IsDistinct nat_eq numbers.now) }
{
    match numbers {
        [] => true,
        [first, rest @ ..] => !rest.contains(first) && are_distinct(rest),
    }
}

/// Whether a brick of this number is one of these members.
fn is_member(members: &Members, number: u64) -> bool
    ensures { result ≡ list_any (λ member. nat_eq member.0 number) members.now }
{
    members
        .as_slice()
        .iter()
        .any(|member| u64::from(member.0) == number)
}

/// How many of these bricks are among these members.
fn members_among(members: &Members, numbers: &[u64]) -> usize
    ensures { result ≡ length (filter (λ number. list_any (λ member. nat_eq member.0 number) members.now) numbers.now) }
{
    numbers
        .iter()
        .filter(|number| is_member(members, **number))
        .count()
}

/// How many of the members of a group of m data blocks make a quorum.
fn quorum_of(m: u8, members: &Members) -> usize
    ensures { result ≡ q_of m (length members.now) }
{
    // Not by a `Policy`, which has m seats at least: the list before view 1 is empty.
    let n = members.as_slice().len();
    n - n.saturating_sub(usize::from(m)) / 2
}

/// Whether a quorum of these members is among these bricks.
fn has_quorum(m: u8, members: &Members, numbers: &[u64]) -> bool
    ensures { Decides result (q_of m (length members.now) ≤ length (filter (λ number. list_any (λ member. nat_eq member.0 number) members.now) numbers.now)) }
{
    quorum_of(m, members) <= members_among(members, numbers)
}

/// Whether a quorum of the members before a view is among these bricks, where an operation in the view may have to ask them.
fn has_prior_quorum(bricks: &[Brick], m: u8, group: GroupId, view: &View, numbers: &[u64]) -> bool
    requires { group.0 < most_groups }
    ensures { Decides result (may_ask_prior_at bricks.now group.0 view.now.number.0 numbers.now ≡ true
        → q_of m (length view.now.prior) ≤ length (filter (λ number. list_any (λ member. nat_eq member.0 number) view.now.prior) numbers.now)) }
{
    if !may_ask_prior(bricks, group, view.number, numbers) {
        return true;
    }
    has_quorum(m, &view.prior, numbers)
}

impl Simulation {
    ghost use Rattle.std.specs.Prelude.{◌≡◌};
    ghost use Rattle.world.specs.Shown.{DecidesCalm, Stands, open_record, open_view};

    /// What is kept of an operation, if it is open.
    pub fn open_record(&self, operation: u64) -> Option<OperationRecord>
        ensures { result ≡ open_record self.now operation }
    {
        let record = record_at(&self.history.operations, operation)?;
        let node = running(&self.bricks, u64::from(record.brick.0))?;
        if node.boot() == record.boot && node.is_open(record.seq) {
            Some(record)
        } else {
            None
        }
    }

    /// The view of an operation, if it is open.
    fn open_view(&self, kept: OperationRecord) -> Option<View>
        ensures { result ≡ open_view self.now kept }
    {
        let node = running(&self.bricks, u64::from(kept.brick.0))?;
        node.view_of(kept.seq)
    }

    /// Whether an operation may run alone among these bricks.
    pub fn is_calm(&self, layout: &Layout, operation: u64, bricks: &[u64]) -> bool
        requires { Stands layout.now self.now }
        ensures { DecidesCalm layout.now self.now operation bricks.now result }
    {
        let Some(record) = self.open_record(operation) else {
            return false;
        };
        let Some(view) = self.open_view(record) else {
            return false;
        };
        // It tells that the layout is within its limits.
        let _ = layout.bricks();
        let Some(group) = layout.group(record.group) else {
            return false;
        };
        if !are_distinct(bricks) {
            return false;
        }
        if !has_quorum(group.m(), &view.members, bricks) {
            return false;
        }
        if !is_in_time(&self.bricks, u64::from(record.brick.0)) {
            return false;
        }
        if !are_able(&self.bricks, layout, record.group, view.number, bricks) {
            return false;
        }
        if !has_prior_quorum(&self.bricks, group.m(), record.group, &view, bricks) {
            return false;
        }
        let delivered = &self.history.delivered;
        delivered.is_untouched(&self.history.sent, record)
    }
}
