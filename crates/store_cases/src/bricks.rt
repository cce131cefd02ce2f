//! A brick's store, what is asked of it, and what it tells.
#![tactic(auto, using(crate::proofs::Shapes::same_shape))]

ghost use Rattle.std.specs.Prelude.{◌≡◌, ◌≤◌, length, find, IsSome, IsTrue, IfOk};
ghost use Rattle.std.specs.Option.{ForSome};
ghost use Rattle.fab_base.specs.Stamps.{stamp_below};
ghost use Rattle.version_log.specs.Versions.{newest, has_stamp};

use anyhow::Result;
use brick_store::{BrickStore, OpenFault, State, StoreFault, format, format_one, open_store};
use fab_base::{Ballot, BrickId, Bytes, GroupId, Members, Stamp, StripeNo, View, ViewNo};
use fab_disk::{Armed, Disk, MemDisk, Plan};
use std::alloc::Global;

/// The records that a store has room for, where nothing else is said.
pub const ROOMY: u32 = 8;

const ME: BrickId = BrickId(5);

const GROUP: GroupId = GroupId(0);

const VIEW: ViewNo = ViewNo(1);

const STRIPE: StripeNo = StripeNo(7);

/// In which format a store is made. An opening brings one of the old format over to the new one.
#[derive(Clone, Copy)]
pub enum Origin {
    New,
    Old,
}

/// What is asked of one stripe, or of its group.
#[derive(Clone, Copy)]
pub enum Change {
    /// An order of this time.
    Order(u64),
    /// A version of this time, whose block begins with this byte.
    Version(u64, u8),
    /// A version of this time, with the block of the one below it.
    Same(u64),
    /// The versions below that of this time are dropped.
    Collect(u64),
    /// A ballot of this round is promised.
    Promise(u32),
    /// A ballot of this round is accepted.
    Accept(u32),
    /// A view of this number is learnt.
    Learn(u32),
    /// The learnt view is synced.
    Synced,
}

/// What a store tells of itself, of its first group, and of one stripe in view 1: of stamps the times, of ballots the rounds.
#[derive(Clone, Copy, Debug, PartialEq, Eq)]
pub struct Picture {
    pub boot: u32,
    pub live: u32,
    pub top: u64,
    pub order: u64,
    pub versions: usize,
    pub newest: Option<u64>,
    pub byte: u8,
    pub view: u32,
    pub synced: bool,
    pub promised: Option<u32>,
    pub accepted: Option<u32>,
}

/// The store of brick 5, with blocks of two bytes.
#[derive(Drop)]
pub struct Brick<D: Disk> {
    store: BrickStore<D>,
    ghost small: { store.shape.block ≡ 2 },
}

fn stamp(time: u64) -> Stamp {
    Stamp {
        view: VIEW,
        time,
        brick: ME,
        boot: 1,
    }
}

fn ballot(round: u32) -> Ballot {
    Ballot {
        round,
        brick: ME,
        boot: 1,
    }
}

/// What is answered to a change that a store can't be asked for. No trial asks for one.
const UNFIT: StoreFault = StoreFault::Halted;

fn two() -> Result<Members, StoreFault>
    ensures { IfOk result (λ members. length members ≡ 2) }
{
    Members::new(&[ME, BrickId(6)]).ok_or(UNFIT)
}

// Whether a stamp is above the versions of a stripe, of which there is one at least.
fn is_next(state: &State<'_>, stamp: Stamp) -> bool
    ensures some { IsTrue result → IsSome (newest state.now.log) }
    ensures above { IsTrue result → ForSome (newest state.now.log) (λ top. IsTrue (stamp_below top.stamp stamp)) }
{
    match state.newest() {
        Some((top, _)) => top.is_below(stamp),
        None => false,
    }
}

// Whether a stripe has a version with this stamp.
#[tactic(auto, using(crate::proofs::Shapes::found))]
fn holds(state: &State<'_>, stamp: Stamp) -> bool
    ensures { IsTrue result → IsSome (find (has_stamp stamp) state.now.log) }
{
    if let Some(_) = state.at(stamp) {
        return true;
    }
    false
}

impl<D: Disk + Drop> Brick<D> {
    /// The store on a disk, of so many records.
    pub fn open(alloc: Global, disk: D, records: u32) -> Result<Brick<D>, (OpenFault, D)>
        requires { (1 ≤ records) × (records ≤ 1048576) }
    {
        match open_store(alloc, disk, ME, 2, records) {
            Ok(store) => Ok(Brick { store }),
            Err((fault, disk)) => Err((fault, disk)),
        }
    }

    /// The same, where the disk is not wanted back from a refusal.
    pub fn reopen(alloc: Global, disk: D, records: u32) -> Result<Brick<D>, OpenFault>
        requires { (1 ≤ records) × (records ≤ 1048576) }
    {
        match Brick::open(alloc, disk, records) {
            Ok(brick) => Ok(brick),
            Err((fault, _)) => Err(fault),
        }
    }

    /// A store that is made on a disk, and opened.
    pub fn make(alloc: Global, disk: D, origin: Origin, records: u32) -> Result<Brick<D>>
        requires { (1 ≤ records) × (records ≤ 1048576) }
    {
        let mut disk = disk;
        match origin {
            Origin::New => format(alloc, &mut disk, ME, 2, records)?,
            Origin::Old => format_one(alloc, &mut disk, ME, 2, records)?,
        }
        Ok(Brick::reopen(alloc, disk, records)?)
    }

    /// Asks these changes of the store, up to one that is refused.
    pub fn apply_all(&mut self, alloc: Global, changes: &[Change]) -> Result<(), StoreFault> {
        for change in changes {
            self.apply(alloc, *change)?;
        }
        Ok(())
    }

    /// Asks a change of the store; `NotAStore` where it may not be asked for it.
    pub fn apply(&mut self, alloc: Global, change: Change) -> Result<(), StoreFault> {
        match change {
            Change::Order(time) => self.order(stamp(time)),
            Change::Version(time, byte) => self.add_block(alloc, stamp(time), byte),
            Change::Same(time) => self.add(stamp(time), None),
            Change::Collect(time) => self.collect(stamp(time)),
            Change::Promise(round) => self.promise(ballot(round)),
            Change::Accept(round) => self.accept(ballot(round)),
            Change::Learn(number) => self.learn(ViewNo(number)),
            Change::Synced => self.all_synced(),
        }
    }

    fn order(&mut self, stamp: Stamp) -> Result<(), StoreFault> {
        if !self.store.serves(GROUP, VIEW) {
            return Err(UNFIT);
        }
        self.store.set_order(GROUP, VIEW, STRIPE, stamp)
    }

    fn add_block(&mut self, alloc: Global, stamp: Stamp, byte: u8) -> Result<(), StoreFault> {
        let block = Bytes::from_slice(alloc, &[byte, 1])?;
        self.add(stamp, Some(block))
    }

    fn add(&mut self, stamp: Stamp, block: Option<Bytes>) -> Result<(), StoreFault>
        requires { ForSome block (λ bytes. length bytes ≡ 2) }
    {
        let next = is_next(&self.store.state(GROUP, VIEW, STRIPE), stamp);
        if !next || !self.store.serves(GROUP, VIEW) {
            return Err(UNFIT);
        }
        self.store.add_version(GROUP, VIEW, STRIPE, stamp, block)
    }

    fn collect(&mut self, stamp: Stamp) -> Result<(), StoreFault> {
        let held = holds(&self.store.state(GROUP, VIEW, STRIPE), stamp);
        if !held || !self.store.serves(GROUP, VIEW) {
            return Err(UNFIT);
        }
        self.store.collect(GROUP, VIEW, STRIPE, stamp)
    }

    fn promise(&mut self, ballot: Ballot) -> Result<(), StoreFault> {
        let learnt = self.store.learnt(GROUP);
        self.store.set_ballot(GROUP, learnt, ballot)
    }

    fn accept(&mut self, ballot: Ballot) -> Result<(), StoreFault> {
        let learnt = self.store.learnt(GROUP);
        self.store.accept(GROUP, learnt, ballot, two()?)
    }

    fn learn(&mut self, number: ViewNo) -> Result<(), StoreFault> {
        if self.store.learnt(GROUP).0 >= number.0 {
            return Err(UNFIT);
        }
        let view = View {
            number,
            members: two()?,
            prior: two()?,
        };
        self.store.learn(GROUP, view)
    }

    fn all_synced(&mut self) -> Result<(), StoreFault> {
        if self.store.known_view(GROUP).is_none() {
            return Err(UNFIT);
        }
        let learnt = self.store.learnt(GROUP);
        self.store.synced(GROUP, learnt)
    }

    // The time of the newest version, and the first byte of its block.
    fn newest(&self) -> (Option<u64>, u8) {
        match self.store.state(GROUP, VIEW, STRIPE).newest() {
            Some((stamp, block)) => {
                let byte = block.as_slice().first().copied().unwrap_or(0);
                (Some(stamp.time), byte)
            }
            None => (None, 0),
        }
    }

    fn is_synced(&self) -> bool {
        match self.store.known_view(GROUP) {
            Some((_, synced)) => synced,
            None => false,
        }
    }

    fn accepted(&self) -> Option<u32> {
        match self.store.accepted(GROUP) {
            Some((ballot, _)) => Some(ballot.round),
            None => None,
        }
    }

    /// What the store tells.
    pub fn look(&self) -> Picture {
        let (newest, byte) = self.newest();
        let state = self.store.state(GROUP, VIEW, STRIPE);
        Picture {
            boot: self.store.boot(),
            live: self.store.live(),
            top: self.store.top_time(),
            order: state.order().time,
            versions: state.len(),
            newest,
            byte,
            view: self.store.learnt(GROUP).0,
            synced: self.is_synced(),
            promised: self.store.promised(GROUP).map(|ballot| ballot.round),
            accepted: self.accepted(),
        }
    }

    /// What the store tells as it is let go.
    pub fn close(self) -> Picture {
        let told = self.look();
        let _ = self.into_disk();
        told
    }

    /// The disk.
    pub fn into_disk(self) -> D {
        self.store.into_disk()
    }
}

/// A disk in memory that holds nothing.
pub fn empty_disk(alloc: Global) -> MemDisk {
    MemDisk::new(alloc, Vec::new(alloc))
}

/// What the store on a disk tells once it is opened.
pub fn told_by<D: Disk + Drop>(alloc: Global, disk: D) -> Result<Picture, OpenFault> {
    Ok(Brick::reopen(alloc, disk, ROOMY)?.close())
}

/// What a store tells that is made on a disk, once these changes were asked of it.
pub fn told_after<D: Disk + Drop>(
    alloc: Global,
    disk: D,
    origin: Origin,
    changes: &[Change],
) -> Result<Picture> {
    let mut brick = Brick::make(alloc, disk, origin, ROOMY)?;
    let answer = brick.apply_all(alloc, changes);
    let told = brick.close();
    answer?;
    Ok(told)
}

/// The disk of a store that is made on it, once these changes were asked of the store.
pub fn disk_after<D: Disk + Drop>(
    alloc: Global,
    disk: D,
    origin: Origin,
    changes: &[Change],
) -> Result<D> {
    let mut brick = Brick::make(alloc, disk, origin, ROOMY)?;
    let answer = brick.apply_all(alloc, changes);
    let disk = brick.into_disk();
    answer?;
    Ok(disk)
}

impl<D: Armed> Brick<D> {
    /// What is to befall a coming call of the disk.
    pub fn arm(&mut self, plan: Plan) {
        self.store.arm(plan);
    }
}
