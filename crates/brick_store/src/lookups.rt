//! What a store tells of what it keeps. No look-up needs memory.

ghost use Rattle.std.specs.Prelude.{◌≡◌, ◌<◌, ◌≤◌, ◌↔◌, ℕ, List, None, IsTrue, false, option_map};
ghost use Rattle.fab_base.specs.Layouts.{most_groups};
ghost use Rattle.fab_disk.specs.Disk.{KeepsRoom};
ghost use Rattle.brick_state.specs.States.{live, group_at};
ghost use Rattle.brick_state.specs.Times.{top_time};
ghost use Rattle.brick_store.specs.Blocks.{accepted_of, version_stamp, first_kept, learnt_of, IsServed};
ghost use Rattle.brick_store.specs.Bricks.{Keeps, IsOrdered};
ghost use Rattle.fab_disk.specs.Changing.{Stands};
ghost use Rattle.brick_store.specs.Images.{StandsFor, IsListed, IsSlotted};

use crate::index_steps::accepted_of;
use crate::stores::BrickStore;
use brick_state::Group;
use fab_base::{Ballot, BrickId, GroupId, Members, View, ViewNo};
use fab_disk::{Armed, Disk, Plan};

impl<D: Disk> BrickStore<D> {
    /// How many live records there are.
    pub fn live(&self) -> u32
        ensures { result ≡ live self.now.state }
    {
        self.index.live()
    }

    /// The greatest view learnt of a group, above 1, and whether all its stripes are known to be in it. None before a view was
    /// learnt. There is none of a group from `MOST_GROUPS` on.
    pub fn known_view(&self, group: GroupId) -> Option<(View, bool)>
        requires { group.0 < most_groups }
        ensures value { result ≡ (group_at self.now.state group.0).known }
        ensures none { (other : ℕ) → most_groups ≤ other → (group_at self.now.state other).known ≡ None }
    {
        known_of(self.index.group(group.0))
    }

    /// The number of the greatest view learnt of a group, 1 before a view was learnt.
    pub fn learnt(&self, group: GroupId) -> ViewNo
        requires { group.0 < most_groups }
        ensures { result.0 ≡ learnt_of (group_at self.now.state group.0) }
    {
        ViewNo(learnt_number(self.index.group(group.0)))
    }

    /// Whether the logs of a view of a group are kept: it is the learnt view, or the one before it until all stripes are known
    /// to be in the learnt one.
    pub fn serves(&self, group: GroupId, view: ViewNo) -> bool
        requires { group.0 < most_groups }
        ensures { IsTrue result ↔ IsServed (group_at self.now.state group.0) view.0 }
    {
        is_served(self.index.group(group.0), view)
    }

    /// The ballot promised for the successor of the learnt view.
    pub fn promised(&self, group: GroupId) -> Option<Ballot>
        requires { group.0 < most_groups }
        ensures { result ≡ option_map (λ kept. kept.0) (group_at self.now.state group.0).ballots }
    {
        promised_of(self.index.group(group.0))
    }

    /// The ballot accepted last for the successor of the learnt view, and its members.
    pub fn accepted(&self, group: GroupId) -> Option<(Ballot, Members)>
        requires { group.0 < most_groups }
        ensures { result ≡ accepted_of (group_at self.now.state group.0) }
    {
        accepted_of(self.index.group(group.0))
    }

    /// The greatest time of a kept stamp: of the order stamps and the versions added, in all views. 0 where there is none.
    pub fn top_time(&self) -> u64
        ensures { result ≡ top_time version_stamp self.now.state }
    {
        self.index.top_time()
    }

    /// How often the store was opened.
    pub fn boot(&self) -> u32
        ensures { result ≡ self.now.state.boot }
    {
        self.index.boot()
    }

    /// The brick that the store was made for.
    pub fn me(&self) -> BrickId
        ensures { result.0 ≡ self.now.shape.me }
    {
        BrickId(self.frames.shape().me)
    }

    /// Whether a call of this store answered [`StoreFault::Disk`](crate::StoreFault::Disk). While none did, a crash leaves only
    /// what opens as what the store keeps.
    pub fn is_halted(&self) -> bool
        ensures value { result ≡ self.now.halted }
        ensures stands { D.tells → self.now.halted ≡ false → Stands D.Disk (StandsFor self.now.shape self.now.state) self.now.disk }
        ensures ordered { IsOrdered self.now.shape.block self.now.state }
        // Whether there is room for a frame is told by what the disk holds.
        ensures listed { D.tells → self.now.halted ≡ false → IsListed self.now.shape self.now.listed (D.seen self.now.disk) }
        // An open store is of the new format, whatever it was opened from.
        ensures slotted { D.tells → self.now.halted ≡ false → IsSlotted self.now.shape (D.seen self.now.disk) }
    {
        let _ = &self.index;
        self.frames.is_halted()
    }

    /// Gives the disk back. Where the store is not halted, the disk stands for what it keeps, and so does whatever a crash leaves.
    pub fn into_disk(self) -> D
        ensures disk { result ≡ self.disk }
        ensures stands { D.tells → self.halted ≡ false → Stands D.Disk (StandsFor self.shape self.state) result }
    {
        let BrickStore {
            alloc: _,
            frames,
            index: _,
            blocks: _,
            zero: _,
        } = self;
        frames.into_disk()
    }
}

impl<D: Armed> BrickStore<D> {
    /// Passes a plan on to the disk: see [`Armed::arm`].
    pub fn arm(&mut self, plan: Plan)
        ensures same { Keeps self.old.state self.old self.new }
        ensures room_left { self.new.listed ≡ self.old.listed }
        ensures halted { self.new.halted ≡ self.old.halted }
        ensures content { D.seen self.new.disk ≡ D.seen self.old.disk }
        ensures crash { (image : List ℕ) → D.may_leave self.new.disk image → D.may_leave self.old.disk image }
        ensures planned { D.plan self.new.disk ≡ plan }
        ensures listed { D.unlisted self.old.disk → D.unlisted self.new.disk }
        ensures faults { D.faults self.new.disk ≡ D.faults self.old.disk }
        ensures room { KeepsRoom (D.has_room self.old.disk) (D.has_room self.new.disk) }
        ensures sound { plan ≡ Plan.Never → D.sound self.old.disk → D.sound self.new.disk }
        ensures again { plan ≡ Plan.Never → D.unlisted self.old.disk → D.sound self.new.disk }
    {
        self.frames.arm(plan);
    }
}

fn known_of(group: &Group) -> Option<(View, bool)>
    ensures { result ≡ group.now.known }
{
    match &group.known {
        Some((view, synced)) => Some((view.copy(), *synced)),
        None => None,
    }
}

fn learnt_number(group: &Group) -> u32
    ensures { result ≡ learnt_of group.now }
{
    match &group.known {
        Some((view, _)) => view.number.0,
        None => 1,
    }
}

fn first_kept(group: &Group) -> u32
    ensures { result ≡ first_kept group.now.known }
{
    match &group.known {
        Some((view, synced)) => {
            if *synced {
                view.number.0
            } else {
                view.number.0.saturating_sub(1)
            }
        }
        None => 1,
    }
}

fn is_served(group: &Group, view: ViewNo) -> bool
    ensures { IsTrue result ↔ IsServed group.now view.0 }
{
    1 <= view.0 && first_kept(group) <= view.0 && view.0 <= learnt_number(group)
}

fn promised_of(group: &Group) -> Option<Ballot>
    ensures { result ≡ option_map (λ kept. kept.0) group.now.ballots }
{
    match &group.ballots {
        Some((promised, _)) => Some(*promised),
        None => None,
    }
}
