//! Changes, and an opening, whose disk stops or fails at each of its calls.

use crate::bricks::{Brick, Change, Origin, Picture, ROOMY, disk_after, empty_disk, told_by};
use crate::olds::PREPARED_OLD;
use anyhow::Result;
use brick_store::OpenFault;
use fab_disk::{Armed, MemDisk, Plan};
use std::alloc::Global;
use std::io;

/// An order, two versions and a promise, which a store is asked for before each trial.
const PREPARED: [Change; 4] = [
    Change::Order(3),
    Change::Version(1, 1),
    Change::Version(2, 2),
    Change::Promise(4),
];

/// The same, and a learnt view.
const LEARNT: [Change; 5] = [
    Change::Order(3),
    Change::Version(1, 1),
    Change::Version(2, 2),
    Change::Promise(4),
    Change::Learn(2),
];

/// What a disk stops or fails in.
#[derive(Clone, Copy)]
enum Deed {
    Apply(Change),
    Opening,
}

/// A deed that is tried: the bytes of the disk that it is tried on, and the calls of the disk that it makes.
#[derive(Clone, Copy)]
struct Trial<'a> {
    name: &'static str,
    deed: Deed,
    calls: u8,
    image: &'a [u8],
}

/// What a store tells before and after a deed.
#[derive(Clone, Copy)]
struct Told {
    before: Picture,
    after: Picture,
}

/// How a call of the disk ends.
#[derive(Clone, Copy)]
enum End {
    Stopped,
    Failed,
}

impl End {
    /// The plan by which this call ends so.
    fn plan(self, call: u64) -> Plan {
        match self {
            End::Stopped => Plan::Stop(call),
            End::Failed => Plan::Fail(call),
        }
    }

    fn name(self) -> &'static str {
        match self {
            End::Stopped => "stopped",
            End::Failed => "failed",
        }
    }
}

/// The bytes of the disk of a store that was made, and of which these changes were asked.
fn image_after(alloc: Global, origin: Origin, changes: &[Change]) -> Result<Vec<u8>> {
    let disk = disk_after(alloc, empty_disk(alloc), origin, changes)?;
    Ok(disk.content(alloc)?)
}

/// How many orders make four calls of the disk each, before one needs a rewrite of the list.
fn orders_that_fit<D: Armed + Drop>(alloc: Global, brick: &mut Brick<D>) -> u64 {
    for count in 0..10_000 {
        brick.arm(Plan::Fail(5));
        if brick.apply(alloc, Change::Order(3)).is_err() {
            return count;
        }
    }
    10_000
}

/// The same of the store on a disk, once it is opened.
fn orders_left<D: Armed + Drop>(alloc: Global, disk: D) -> Result<u64, OpenFault> {
    let mut brick = Brick::reopen(alloc, disk, ROOMY)?;
    let count = orders_that_fit(alloc, &mut brick);
    let _ = brick.into_disk();
    Ok(count)
}

/// The changes that make a prepared store, and as many orders more.
fn with_orders(alloc: Global, count: u64) -> Result<Vec<Change>> {
    let mut changes = PREPARED.to_vec(alloc)?;
    for _ in 0..count {
        changes.push(Change::Order(3))?;
    }
    Ok(changes)
}

/// The bytes of a prepared store that has no room for a further order once it is opened again.
fn full_image(alloc: Global) -> Result<Vec<u8>> {
    let disk = disk_after(alloc, empty_disk(alloc), Origin::New, &PREPARED)?;
    let count = orders_left(alloc, disk)?;
    image_after(alloc, Origin::New, &with_orders(alloc, count)?)
}

/// The disk after a change of its store under this plan.
fn changed<D: Armed + Drop>(alloc: Global, disk: D, change: Change, plan: Plan) -> Result<D> {
    let mut brick = Brick::reopen(alloc, disk, ROOMY)?;
    brick.arm(plan);
    let _ = brick.apply(alloc, change);
    Ok(brick.into_disk())
}

/// The disk after an opening of its store under this plan.
fn opened<D: Armed + Drop>(alloc: Global, disk: D, plan: Plan) -> D {
    let mut disk = disk;
    disk.arm(plan);
    match Brick::open(alloc, disk, ROOMY) {
        Ok(brick) => brick.into_disk(),
        Err((_, disk)) => disk,
    }
}

impl Trial<'_> {
    /// What is told after the deed, whose disk has this plan, and is settled by this number.
    fn told_after(&self, alloc: Global, plan: Plan, pick: u64) -> Result<Picture> {
        let disk = MemDisk::new(alloc, self.image.to_vec(alloc)?);
        let mut disk = match self.deed {
            Deed::Apply(change) => changed(alloc, disk, change, plan)?,
            Deed::Opening => opened(alloc, disk, plan),
        };
        disk.settle(pick);
        disk.arm(Plan::Never);
        Ok(told_by(alloc, disk)?)
    }

    /// What is told before and after the deed.
    fn told(&self, alloc: Global) -> Result<Told> {
        let before = self.told_after(alloc, Plan::Fail(1), 0)?;
        let after = self.told_after(alloc, Plan::Never, 0)?;
        Ok(Told { before, after })
    }

    /// Which of two pictures is told where a call of the disk ended so.
    fn word(&self, alloc: Global, told: &Told, plan: Plan, pick: u64) -> Result<&'static str> {
        let found = self.told_after(alloc, plan, pick)?;
        Ok(told.word_for(&found))
    }

    /// Prints a word for each call of the disk that ends so, and for one more.
    fn print_line(
        &self,
        rt: &(impl Print + AllocGlobal),
        told: &Told,
        end: End,
        pick: u64,
    ) -> Result<()> {
        print!(rt; "{} {} pick {pick}:", self.name, end.name())?;
        for call in 1..u64::from(self.calls) + 2 {
            rt.print(self.word(rt.alloc(), told, end.plan(call), pick)?)?;
        }
        println!(rt;)?;
        Ok(())
    }

    /// Prints what is told before and after the deed, and which of these is told where the disk stopped or failed.
    fn print(&self, rt: &(impl Print + AllocGlobal)) -> Result<()> {
        let told = self.told(rt.alloc())?;
        told.print(rt, self.name)?;
        for pick in 0..3 {
            self.print_line(rt, &told, End::Stopped, pick)?;
        }
        for pick in 0..3 {
            self.print_line(rt, &told, End::Failed, pick)?;
        }
        Ok(())
    }
}

impl Told {
    fn print(&self, rt: &impl Print, name: &str) -> io::Result<()> {
        println!(rt; "{name} before: {:?}", self.before)?;
        println!(rt; "{name} after: {:?}", self.after)
    }

    /// Which of the two is found.
    fn word_for(&self, found: &Picture) -> &'static str {
        if *found == self.before {
            " before"
        } else if *found == self.after {
            " after"
        } else {
            " neither"
        }
    }
}

/// A trial of a change.
fn change<'a>(name: &'static str, change: Change, calls: u8, image: &'a [u8]) -> Trial<'a> {
    Trial {
        name,
        deed: Deed::Apply(change),
        calls,
        image,
    }
}

/// A trial of an opening.
fn opening<'a>(name: &'static str, calls: u8, image: &'a [u8]) -> Trial<'a> {
    Trial {
        name,
        deed: Deed::Opening,
        calls,
        image,
    }
}

/// Prints each of these trials.
fn print_each(rt: &(impl Print + AllocGlobal), trials: &[Trial<'_>]) -> Result<()> {
    for trial in trials {
        trial.print(rt)?;
    }
    Ok(())
}

/// Prints a change that needs a slot, of a store that is made in this format.
pub fn run(rt: &(impl Print + AllocGlobal), origin: Origin) -> Result<()> {
    let plain = image_after(rt.alloc(), origin, &PREPARED)?;
    change("add_version", Change::Version(9, 9), 5, &plain).print(rt)
}

/// Prints each other change and an opening, and an order of a full store that first needs a rewrite of the list.
pub fn print_others(rt: &(impl Print + AllocGlobal)) -> Result<()> {
    let alloc = rt.alloc();
    let plain = image_after(alloc, Origin::New, &PREPARED)?;
    let learnt = image_after(alloc, Origin::New, &LEARNT)?;
    let full = full_image(alloc)?;
    let trials = [
        change("set_order", Change::Order(9), 4, &plain),
        change("add_version of the same block", Change::Same(9), 4, &plain),
        change("collect", Change::Collect(2), 4, &plain),
        change("set_ballot", Change::Promise(9), 4, &plain),
        change("accept", Change::Accept(9), 4, &plain),
        change("learn", Change::Learn(2), 4, &plain),
        change("synced", Change::Synced, 4, &learnt),
        opening("open_store", 5, &plain),
        change("set_order with a rewrite", Change::Order(9), 11, &full),
    ];
    print_each(rt, &trials)
}

/// Prints an opening that brings a prepared store of the old format over.
pub fn print_bringing(rt: &(impl Print + AllocGlobal)) -> Result<()> {
    opening("open_store of the old format", 13, &PREPARED_OLD).print(rt)
}
