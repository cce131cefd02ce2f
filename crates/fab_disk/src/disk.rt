// What a store asks of a disk.
ghost use Rattle.std.specs.Prelude.{◌≡◌, ◌+◌, ◌≤◌, ◌^◌, List, ℕ, length, slice_range, IfOk, IsOk, OnOk, OnErr, IsOkUnless};
ghost use Rattle.fab_disk.specs.declared.disk.Plan.{Plan};
ghost use Rattle.fab_base.specs.declared.faults.IoFault.TheVariants.{NoMemory};
ghost use Rattle.fab_disk.specs.Disk.{written, Torn, Follows, Only, Elapses, IsUntouched, IsWrittenOrNot, Kept, KeepsRoom, TakesRoom};
ghost use Rattle.fab_disk.specs.Plan.{IsRun, KeepsPlan, next_fate, plan_after};

use fab_base::IoFault;

/// The greatest place at which a write may begin or end, in bytes.
pub const MAX_END: u64 = 1 << 48;

/// Bytes that outlast the program. What a call does to them is told by the kinds in memory, and by no others.
pub trait Disk {
    /// Whether this kind tells what it holds.
    ghost tells: { Type 0 };

    /// The bytes that a read gives.
    ghost seen: { Self → List ℕ };

    /// What a crash at this moment may leave.
    ghost may_leave: { Self → List ℕ → Type 0 };

    /// The clock: how many calls of `write_at` and `sync` were made.
    ghost moment: { Self → ℕ };

    /// What the last sync that succeeded left. A crash at any moment since may have left it.
    ghost certain: { Self → List ℕ };

    /// What a crash at that moment or a later one might have left, during a call or between two.
    ghost left_since: { Self → ℕ → List ℕ → Type 0 };

    /// How often the disk has failed, a count that stops at 2^64 - 1.
    ghost faults: { Self → ℕ };

    /// Nothing is known that will make a call fail.
    ghost sound: { Self → Type 0 };

    /// What is to befall one of the coming calls of `write_at` and `sync`.
    ghost plan: { Self → Plan };

    /// No call is listed to fail, so that a call fails by the plan alone. The trait says no more of a list, whose numbers count the
    /// calls that read too. A plan counts `write_at` and `sync` alone, as the clock does.
    ghost unlisted: { Self → Type 0 };

    /// The coming calls of `write_at` and `sync`, so many, with so many bytes in all and ends at most there, never want memory.
    ghost has_room: { Self → ℕ → ℕ → ℕ → Type 0 };

    /// How many bytes there are.
    fn len(&mut self) -> Result<u64, IoFault>
        ensures length { tells → IfOk result (λ n. n ≡ length (seen self.old)) }
        ensures untouched { IsUntouched seen may_leave moment left_since self.old self.new }
        ensures certain { certain self.new ≡ certain self.old }
        ensures room { KeepsRoom (has_room self.old) (has_room self.new) }
        ensures plan { KeepsPlan plan unlisted self.old self.new (result ≡ Err IoFault.Failed) }
        ensures cause { Kept (faults self.old) (faults self.new) (sound self.old) (sound self.new) (result ≡ Err IoFault.Failed) };

    /// Reads the bytes from `at` on, as many as `into` holds. Fewer are a fault.
    fn read_at(&mut self, at: u64, into: &mut [u8]) -> Result<(), IoFault>
        requires within { tells → at + length into.old ≤ length (seen self.old) }
        requires reach { at + length into.old ≤ 2 ^ 48 }
        ensures bytes { tells → OnOk result (into.new ≡ slice_range (seen self.old) at (at + length into.old)) }
        ensures untouched { IsUntouched seen may_leave moment left_since self.old self.new }
        ensures certain { certain self.new ≡ certain self.old }
        ensures room { KeepsRoom (has_room self.old) (has_room self.new) }
        ensures plan { KeepsPlan plan unlisted self.old self.new (result ≡ Err IoFault.Failed) }
        ensures cause { Kept (faults self.old) (faults self.new) (sound self.old) (sound self.new) (result ≡ Err IoFault.Failed) };

    /// Makes room in memory for the coming calls of `write_at` and `sync`: at most `calls` of them, with `bytes` bytes in
    /// all and ends at most `end`. Nothing of what is held changes.
    fn reserve(&mut self, calls: usize, bytes: usize, end: u64) -> Result<(), IoFault>
        requires { end ≤ 2 ^ 48 }
        ensures made { OnOk result (has_room self.new calls bytes end) }
        ensures enough { has_room self.old calls bytes end → IsOk result }
        ensures only_memory { IsOkUnless result IoFault.NoMemory }
        ensures untouched { IsUntouched seen may_leave moment left_since self.old self.new }
        ensures certain { certain self.new ≡ certain self.old }
        ensures room { KeepsRoom (has_room self.old) (has_room self.new) }
        ensures plan { KeepsPlan plan unlisted self.old self.new (result ≡ Err IoFault.Failed) }
        ensures cause { Kept (faults self.old) (faults self.new) (sound self.old) (sound self.new) (result ≡ Err IoFault.Failed) };

    /// Writes over what is there, and past the end, where a gap is filled with zeros. Until a sync, a crash may leave any
    /// bytes in the range and past the old end; also after a call that stops. A call that fails by the plan does nothing.
    fn write_at(&mut self, at: u64, from: &[u8]) -> Result<(), IoFault>
        requires { at + length from.now ≤ 2 ^ 48 }
        ensures written { tells → OnOk result (seen self.new ≡ written at from.now (seen self.old)) }
        ensures crash { Follows (Torn at (length from.now)) (may_leave self.old) (may_leave self.new) }
        ensures time { Elapses (moment self.old) (moment self.new) (left_since self.old) (left_since self.new) (may_leave self.new) }
        ensures no_memory { result ≡ Err IoFault.NoMemory → IsUntouched seen may_leave moment left_since self.old self.new }
        ensures room { TakesRoom (length from.now) (at + length from.now) (has_room self.old) (has_room self.new) (result ≡ Err IoFault.NoMemory) }
        ensures plan { IsRun tells moment plan unlisted 1 self.old self.new (IsOk result) (result ≡ Err IoFault.Failed) }
        ensures fails { plan self.old ≡ Plan.Fail 1 → IsUntouched seen may_leave moment left_since self.old self.new }
        ensures certain { certain self.new ≡ certain self.old }
        ensures cut { tells → result ≡ Err IoFault.Failed → IsWrittenOrNot (moment self.old) (moment self.new) (seen self.old) (seen self.new)
            (written at from.now (seen self.old)) }
        ensures cause { Kept (faults self.old) (faults self.new) (sound self.old) (sound self.new) (result ≡ Err IoFault.Failed) };

    /// After it, a crash leaves what a read gives. A call that stops, or fails by the plan, makes nothing certain.
    fn sync(&mut self) -> Result<(), IoFault>
        ensures durable { tells → OnOk result (Only (seen self.old) (may_leave self.new)) }
        ensures content { seen self.new ≡ seen self.old }
        ensures certain { OnErr result (certain self.new ≡ certain self.old) }
        ensures cut { OnErr result (moment self.new ≤ moment self.old + 1) }
        ensures crash { (image : List ℕ) → may_leave self.new image → may_leave self.old image }
        ensures time { Elapses (moment self.old) (moment self.new) (left_since self.old) (left_since self.new) (may_leave self.new) }
        ensures no_memory { result ≡ Err IoFault.NoMemory → IsUntouched seen may_leave moment left_since self.old self.new }
        ensures room { TakesRoom 0 0 (has_room self.old) (has_room self.new) (result ≡ Err IoFault.NoMemory) }
        ensures plan { IsRun tells moment plan unlisted 1 self.old self.new (IsOk result) (result ≡ Err IoFault.Failed) }
        ensures fails { plan self.old ≡ Plan.Fail 1 → IsUntouched seen may_leave moment left_since self.old self.new }
        ensures cause { Kept (faults self.old) (faults self.new) (sound self.old) (sound self.new) (result ≡ Err IoFault.Failed) };

    /// Room for more is room for less.
    ghost room_for_less: { (disk : Self) (calls bytes end fewer less nearer : ℕ) → fewer ≤ calls → less ≤ bytes → nearer ≤ end
        → has_room disk calls bytes end → has_room disk fewer less nearer };

    /// What a read gives is among what a crash may leave.
    ghost seen_is_left: { (disk : Self) → may_leave disk (seen disk) };

    /// And so is what the last sync left.
    ghost certain_is_left: { (disk : Self) → may_leave disk (certain disk) };

    /// This moment is one of those since an earlier one.
    ghost counts_now: { (disk : Self) (t : ℕ) (image : List ℕ) → t ≤ moment disk → may_leave disk image → left_since disk t image };

    /// Since this moment there is no other.
    ghost only_now: { (disk : Self) (image : List ℕ) → left_since disk (moment disk) image → may_leave disk image };

    /// With no plan and no listed call a disk is sound.
    ghost sound_unplanned: { (disk : Self) → plan disk ≡ Plan.Never → unlisted disk → sound disk };

    /// A sound disk has no plan.
    ghost never_planned: { (disk : Self) → sound disk → plan disk ≡ Plan.Never };

    /// A sound disk has no listed call.
    ghost never_listed: { (disk : Self) → sound disk → unlisted disk };
}

/// What is to befall one of the coming calls of `write_at` and `sync`, counted from 1.
#[derive(Clone, Copy, PartialEq, Eq)]
pub enum Plan {
    /// None of them.
    Never,
    /// The call of this number stops: it may have done any part of its work, and answers [`IoFault::Failed`].
    Stop(u64),
    /// The call of this number does nothing and answers [`IoFault::Failed`].
    Fail(u64),
}

impl Plan {
    // What befalls the next call, and the plan for those after it.
    pub(crate) fn next(self) -> (Fate, Plan)
        ensures fate { result.0 ≡ next_fate self }
        ensures left { result.1 ≡ plan_after self }
    {
        match self {
            Plan::Never => (Fate::Goes, Plan::Never),
            Plan::Stop(1) => (Fate::Stops, Plan::Never),
            Plan::Stop(number) => (Fate::Goes, Plan::Stop(number.saturating_sub(1))),
            Plan::Fail(1) => (Fate::Fails, Plan::Never),
            Plan::Fail(number) => (Fate::Goes, Plan::Fail(number.saturating_sub(1))),
        }
    }
}

// What befalls a call.
#[derive(Clone, Copy, PartialEq, Eq)]
pub(crate) enum Fate {
    Goes,
    Stops,
    Fails,
}

/// A disk that can be told to fail.
pub trait Armed: Disk {
    /// Takes a plan in the place of the one before, used up or not. What is held and listed stays, and what a crash might have left is
    /// told from now on. By `Never` a disk with no listed call is sound again.
    fn arm(&mut self, plan: Plan)
        ensures content { Self.seen self.new ≡ Self.seen self.old }
        ensures certain { Self.certain self.new ≡ Self.certain self.old }
        ensures crash { (image : List ℕ) → Self.may_leave self.new image → Self.may_leave self.old image }
        ensures planned { Self.plan self.new ≡ plan }
        ensures listed { Self.unlisted self.old → Self.unlisted self.new }
        ensures faults { Self.faults self.new ≡ Self.faults self.old }
        ensures room { KeepsRoom (Self.has_room self.old) (Self.has_room self.new) }
        ensures sound { plan ≡ Plan.Never → Self.sound self.old → Self.sound self.new }
        ensures again { plan ≡ Plan.Never → Self.unlisted self.old → Self.sound self.new };
}
