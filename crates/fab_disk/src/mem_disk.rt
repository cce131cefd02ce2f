// A disk in memory, which can be made to fail or to stop.
ghost use Rattle.std.specs.Prelude.{◌≡◌, ◌≢◌, ◌+◌, ◌≤◌, ◌^◌, [], List, ℕ, length, slice_range, IsTrue, IfOk, IsOk, OnOk, OnErr, IsOkUnless};
ghost use Rattle.fab_disk.specs.Disk.{written, Torn, Follows, Only, Elapses, IsUntouched, IsWrittenOrNot, Kept, KeepsRoom, TakesRoom};
ghost use Rattle.fab_disk.specs.Plan.{IsRun};

use crate::disk::Fate;
use crate::failing_calls::FailingCalls;
use crate::medium::Medium;
use crate::{Armed, Disk, Plan};
use fab_base::IoFault;
use std::alloc::{AllocError, Global};

/// Bytes in memory that behave as a disk, and tell all that they hold. Pages that were never written take no room.
///
/// It fails at the calls that [`MemDisk::fail_at`] lists and by the plan that [`Armed::arm`] takes, and at no others.
pub struct MemDisk {
    medium: Medium,
    plan: Plan,
    failing: FailingCalls,
    faults: u64,
}

impl Drop for MemDisk {
    // Written out, it is proved once: a derived one is proved anew, with that of each part, in each crate above that lets one go.
    fn drop(self) {
        let Self {
            medium: _,
            plan: _,
            failing: _,
            faults: _,
        } = self;
    }
}

impl MemDisk {
    ghost use Rattle.std.specs.Prelude.{◌≡◌, ◌≢◌, ◌<◌, ◌-◌, ◌^◌, [], List, ℕ};
    ghost use Rattle.fab_disk.specs.Disk.{Kept, KeepsRoom};
    ghost use Rattle.fab_disk.specs.Past.{IsImage, IsSettled};
    ghost use Rattle.fab_disk.specs.Medium.{HasRoom};
    ghost use Rattle.fab_disk.specs.Settled.{settled_at};
    ghost use Rattle.fab_disk.specs.Plan.{next_fate, plan_after};
    ghost use Rattle.fab_disk.specs.FailingCalls.{NoneLeft, FailsNext};
    ghost use Rattle.fab_disk.specs.MemDisk.{content_of, past_of_disk, FailsWhole, GoesOn, IsSound, Lists};

    /// A sound disk that holds these bytes. A crash leaves them.
    pub fn new(alloc: Global, content: Vec<u8>) -> MemDisk
        ensures content { content_of result ≡ content.items }
        ensures past { past_of_disk result ≡ [] }
        ensures sound { IsSound result }
    {
        MemDisk {
            medium: Medium::new(alloc, content),
            plan: Plan::Never,
            failing: FailingCalls::none(alloc),
            faults: 0,
        }
    }

    /// A copy of the bytes that a read gives. It counts as no call.
    ///
    /// # Errors
    /// Memory was refused.
    pub fn content(&self, alloc: Global) -> Result<Vec<u8>, AllocError>
        ensures { IfOk result (λ bytes. bytes.items ≡ content_of self.now) }
    {
        let mut bytes = vec![in alloc; 0; self.medium.content.len()]?;
        self.medium.content.read(0, &mut bytes[..]);
        Ok(bytes)
    }

    /// Lists the calls that are to fail, in the place of those listed before: the calls of `len`, `read_at`, `write_at` and
    /// `sync` are numbered together, and the next one is 1. That a listed call fails is said by the parts of
    /// this type, and not by the trait.
    pub fn fail_at(&mut self, calls: Vec<u64>)
        ensures content { content_of self.new ≡ content_of self.old }
        ensures past { past_of_disk self.new ≡ past_of_disk self.old }
        ensures listed { Lists self.new calls.items }
        ensures faults { self.new.faults ≡ self.old.faults }
    {
        self.failing = FailingCalls::of(calls);
    }

    /// Makes a stopped disk hold one of the images that a crash may leave: at 0 the one from the last sync that succeeded, at 1
    /// all that was written, and above 1 bytes that the generator Pcg32 draws, made from this number, one for each place that
    /// may have changed. It takes no memory.
    pub fn settle(&mut self, pick: u64)
        ensures content { content_of self.new ≡ settled_at pick (past_of_disk self.old) (content_of self.old) }
        ensures image { IsImage (past_of_disk self.old) (content_of self.old) (content_of self.new) }
        ensures past { past_of_disk self.new ≡ [] }
        ensures sound { IsSound self.old → IsSound self.new }
        ensures faults { self.new.faults ≡ self.old.faults }
    {
        self.medium.settle(pick);
    }

    /// Lets go of what is kept to undo calls, where the newest call that changed the disk was a sync; else nothing happens. What
    /// is held, planned and listed stays, and what a crash might have left is told from now on. Undo data grows until then.
    pub fn forget(&mut self)
        ensures content { content_of self.new ≡ content_of self.old }
        ensures crash { (image : List ℕ) → IsImage (past_of_disk self.new) (content_of self.new) image
            → IsImage (past_of_disk self.old) (content_of self.old) image }
        ensures settled { IsSettled (past_of_disk self.old) → past_of_disk self.new ≡ [] }
        ensures room { KeepsRoom (HasRoom self.old.medium) (HasRoom self.new.medium) }
        ensures plan { self.new.plan ≡ self.old.plan }
        ensures listed { self.new.failing ≡ self.old.failing }
        ensures sound { IsSound self.old → IsSound self.new }
        ensures faults { self.new.faults ≡ self.old.faults }
    {
        self.medium.forget();
    }

    // Counts a call that only looks. `Failed` where it is to fail.
    fn look(&mut self) -> Result<(), IoFault>
        ensures medium { self.new.medium ≡ self.old.medium }
        ensures plan { self.new.plan ≡ self.old.plan }
        ensures cause { Kept self.old.faults self.new.faults (IsSound self.old) (IsSound self.new) (result ≡ Err IoFault.Failed) }
        ensures only { IsOkUnless result IoFault.Failed }
        ensures listed { self.old.failing.made < 2 ^ 64 - 1 → FailsNext self.old.failing → result ≡ Err IoFault.Failed }
        ensures unlisted { NoneLeft self.old.failing → NoneLeft self.new.failing }
        ensures never { NoneLeft self.old.failing → result ≢ Err IoFault.Failed }
    {
        if self.failing.next_fails() {
            self.faults = self.faults.saturating_add(1);
            return Err(IoFault::Failed);
        }
        Ok(())
    }

    // Counts a call that changes the disk, and says what befalls it.
    fn next_fate(&mut self) -> Fate
        ensures medium { self.new.medium ≡ self.old.medium }
        ensures cause { Kept self.old.faults self.new.faults (IsSound self.old) (IsSound self.new) (result ≢ Fate.Goes) }
        ensures goes { result ≡ Fate.Goes → next_fate self.old.plan ≡ Fate.Goes }
        ensures planned { NoneLeft self.old.failing → result ≡ next_fate self.old.plan }
        ensures unlisted { NoneLeft self.old.failing → NoneLeft self.new.failing }
        ensures whole { FailsWhole self.old.plan self.old.failing → result ≡ Fate.Fails }
        ensures early { GoesOn self.old.plan self.old.failing → result ≡ Fate.Goes }
        ensures left { self.new.plan ≡ plan_after self.old.plan }
        ensures listed { self.old.failing.made < 2 ^ 64 - 1 → FailsNext self.old.failing → result ≢ Fate.Goes }
    {
        let (planned, left) = self.plan.next();
        self.plan = left;
        let fate = self.failing.or_listed(planned);
        if fate != Fate::Goes {
            self.faults = self.faults.saturating_add(1);
        }
        fate
    }
}

impl Disk for MemDisk {
    ghost use Rattle.fab_disk.specs.PastLaws.{content_is_image, rolled_back_is_image, image_had, had_now};
    ghost use Rattle.fab_disk.specs.MediumLaws.{room_for_less, fits_shown};
    ghost use Rattle.fab_disk.specs.MemDisk.{content_of, past_of_disk, may_be_left, certain_of, was_left_since, moment_of, plan_of, is_unlisted, room_of, FailsWhole, GoesOn, HoldsAsBefore, IsSound};
    ghost use Rattle.fab_disk.specs.Plan.{plan_after};

    ghost tells = { Unit {0} };

    ghost seen = { content_of };

    ghost may_leave = { may_be_left };

    ghost moment = { moment_of };

    ghost certain = { certain_of };

    ghost left_since = { was_left_since };

    ghost faults = { λ disk. disk.faults };

    ghost sound = { IsSound };

    ghost plan = { plan_of };

    ghost unlisted = { is_unlisted };

    ghost has_room = { room_of };

    ghost room_for_less = { λ disk calls bytes end fewer less nearer c b e room. room_for_less disk.medium calls bytes end fewer less nearer c b e room };

    ghost seen_is_left = { λ disk. content_is_image (past_of_disk disk) (content_of disk) (fits_shown disk.medium) };

    ghost certain_is_left = { λ disk. rolled_back_is_image (past_of_disk disk) (content_of disk) };

    ghost counts_now = { λ disk t image le now. image_had (past_of_disk disk) (content_of disk) t image now };

    ghost only_now = { λ disk image had. had_now (past_of_disk disk) (content_of disk) image had };

    ghost sound_unplanned = { λ disk planned listed. record { unplanned = planned; unlisted = listed } };

    ghost never_planned = { λ disk sound. sound.unplanned };

    ghost never_listed = { λ disk sound. sound.unlisted };

    fn len(&mut self) -> Result<u64, IoFault> {
        self.look()?;
        Ok(self.medium.content.len() as u64)
    }

    fn read_at(&mut self, at: u64, into: &mut [u8]) -> Result<(), IoFault> {
        self.look()?;
        let at = at as usize;
        self.medium.content.read(at, into);
        Ok(())
    }

    fn reserve(&mut self, calls: usize, bytes: usize, end: u64) -> Result<(), IoFault> {
        self.medium.reserve(calls, bytes, end as usize)?;
        Ok(())
    }

    fn write_at(&mut self, at: u64, from: &[u8]) -> Result<(), IoFault>
        requires { at + length from.now ≤ 2 ^ 48 }
        ensures written { OnOk result (content_of self.new ≡ written at from.now (content_of self.old)) }
        ensures crash { Follows (Torn at (length from.now)) (may_be_left self.old) (may_be_left self.new) }
        ensures time { Elapses (moment_of self.old) (moment_of self.new) (was_left_since self.old) (was_left_since self.new) (may_be_left self.new) }
        ensures no_memory { result ≡ Err IoFault.NoMemory → IsUntouched content_of may_be_left moment_of was_left_since self.old self.new }
        ensures room { TakesRoom (length from.now) (at + length from.now) (room_of self.old) (room_of self.new) (result ≡ Err IoFault.NoMemory) }
        ensures plan { IsRun (Unit {0}) moment_of plan_of is_unlisted 1 self.old self.new (IsOk result) (result ≡ Err IoFault.Failed) }
        ensures fails { plan_of self.old ≡ Plan.Fail 1 → IsUntouched content_of may_be_left moment_of was_left_since self.old self.new }
        ensures certain { certain_of self.new ≡ certain_of self.old }
        ensures cut { result ≡ Err IoFault.Failed → IsWrittenOrNot (moment_of self.old) (moment_of self.new) (content_of self.old) (content_of self.new)
            (written at from.now (content_of self.old)) }
        ensures cause { Kept self.old.faults self.new.faults (IsSound self.old) (IsSound self.new) (result ≡ Err IoFault.Failed) }
        ensures whole { FailsWhole self.old.plan self.old.failing → HoldsAsBefore self.old self.new }
        // A call before the plan's number is made as if there were no plan.
        ensures early { GoesOn self.old.plan self.old.failing → result ≢ Err IoFault.Failed }
        ensures left { result ≢ Err IoFault.NoMemory → self.new.plan ≡ plan_after self.old.plan }
    {
        let at = at as usize;
        self.medium.reserve(1, from.len(), at + from.len())?;
        match self.next_fate() {
            Fate::Goes => {
                self.medium.overwrite(at, from);
                Ok(())
            }
            Fate::Stops => {
                self.medium.overwrite(at, from);
                Err(IoFault::Failed)
            }
            Fate::Fails => Err(IoFault::Failed),
        }
    }

    fn sync(&mut self) -> Result<(), IoFault>
        ensures durable { OnOk result (Only (content_of self.old) (may_be_left self.new)) }
        ensures content { content_of self.new ≡ content_of self.old }
        ensures certain { OnErr result (certain_of self.new ≡ certain_of self.old) }
        ensures cut { OnErr result (moment_of self.new ≤ moment_of self.old + 1) }
        ensures crash { (image : List ℕ) → may_be_left self.new image → may_be_left self.old image }
        ensures time { Elapses (moment_of self.old) (moment_of self.new) (was_left_since self.old) (was_left_since self.new) (may_be_left self.new) }
        ensures no_memory { result ≡ Err IoFault.NoMemory → IsUntouched content_of may_be_left moment_of was_left_since self.old self.new }
        ensures room { TakesRoom 0 0 (room_of self.old) (room_of self.new) (result ≡ Err IoFault.NoMemory) }
        ensures plan { IsRun (Unit {0}) moment_of plan_of is_unlisted 1 self.old self.new (IsOk result) (result ≡ Err IoFault.Failed) }
        ensures fails { plan_of self.old ≡ Plan.Fail 1 → IsUntouched content_of may_be_left moment_of was_left_since self.old self.new }
        ensures cause { Kept self.old.faults self.new.faults (IsSound self.old) (IsSound self.new) (result ≡ Err IoFault.Failed) }
        ensures whole { FailsWhole self.old.plan self.old.failing → HoldsAsBefore self.old self.new }
        // A call before the plan's number is made as if there were no plan.
        ensures early { GoesOn self.old.plan self.old.failing → result ≢ Err IoFault.Failed }
        ensures left { result ≢ Err IoFault.NoMemory → self.new.plan ≡ plan_after self.old.plan }
    {
        self.medium.reserve(1, 0, 0)?;
        match self.next_fate() {
            Fate::Goes => {
                self.medium.commit();
                Ok(())
            }
            Fate::Stops => {
                // It was begun, and so it counts: as a write of no bytes.
                self.medium.overwrite(0, &[]);
                Err(IoFault::Failed)
            }
            Fate::Fails => Err(IoFault::Failed),
        }
    }
}

impl Armed for MemDisk {
    ghost use Rattle.fab_disk.specs.MemDisk.{content_of, may_be_left, certain_of, plan_of, is_unlisted, room_of, IsSound};

    fn arm(&mut self, plan: Plan)
        ensures content { content_of self.new ≡ content_of self.old }
        ensures certain { certain_of self.new ≡ certain_of self.old }
        ensures crash { (image : List ℕ) → may_be_left self.new image → may_be_left self.old image }
        ensures planned { plan_of self.new ≡ plan }
        ensures listed { is_unlisted self.old → is_unlisted self.new }
        ensures faults { self.new.faults ≡ self.old.faults }
        ensures room { KeepsRoom (room_of self.old) (room_of self.new) }
        ensures sound { plan ≡ Plan.Never → IsSound self.old → IsSound self.new }
        ensures again { plan ≡ Plan.Never → is_unlisted self.old → IsSound self.new }
        ensures failing { self.new.failing ≡ self.old.failing }
    {
        self.plan = plan;
        // What undoes calls that a sync settled is needed no more.
        self.medium.forget();
    }
}
