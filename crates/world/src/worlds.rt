//! The world: a run of steps over the disk of a layout.

ghost use Rattle.std.specs.Prelude.{◌≡◌, IfOk, map};
ghost use Rattle.world.specs.Suspected.{group_asked};
ghost use Rattle.world.specs.Texts.{marks_if, outcome_text};

use crate::bricks::Power;
use crate::simulations::{Outcome, Simulation, member_no};
use crate::stripe_entries::StripeEntries;
use crate::texts::{idle_text, marks_text, reports_text};
use crate::trails::Trail;
use crate::walks;
use fab_base::{BrickId, Bytes, GroupId, Members, NoMem, Refusal, StripeNo, View};
use layout::Layout;
use lines::{BrickList, Line, parse};
use messages::Packet;
use protocol::Report;
use reg_model::{Happening, Mark};
use spares::Spares;
use std::alloc::Global;
use std::marker::Model;

/// The whole disk of a layout over simulated bricks. It stands for the run of the steps that it took.
///
/// A clause sees the layout, the steps, and the disk of each brick. The steps themselves are not kept.
pub struct World {
    alloc: Global,
    layout: Layout,
    simulation: Simulation,
    spares: Spares,
}

impl Model for World {
    ghost use Rattle.world.specs.Runs.{Run};

    ghost Value = { Run };

    ghost use Rattle.std.specs.Coded.{codes};
    ghost use Rattle.fab_disk.specs.contracts.mem_disk.MemDisk as disk;

    ghost coded = { Prim.hlevel (codes, disk.the_row.coded) };

    ghost use Rattle.world.specs.Standing.{run_of, IsStanding};

    ghost view = { run_of };

    ghost invariant = { IsStanding };
}

impl Drop for World {
    // Written out, it is proved once: a derived one is proved anew, with that of each part, in each crate above that lets a world go.
    fn drop(self) {
        let Self {
            alloc: _,
            layout: _,
            simulation: _,
            spares: _,
        } = self;
    }
}

/// Why a line was not run to its end.
#[derive(Clone, Copy, Debug, PartialEq, Eq)]
pub enum StepFault {
    /// It is no line of a schedule.
    BadLine,
    /// No memory was left.
    NoMemory,
}

impl From<NoMem> for StepFault {
    ghost use Rattle.std.specs.Prelude.{◌≡◌};
    ghost use Rattle.world.specs.declared.worlds.StepFault.TheVariants.{NoMemory};

    ghost from_gives = { λ _ e. e ≡ NoMemory };

    fn from(_error: NoMem) -> StepFault {
        StepFault::NoMemory
    }
}

/// The text of what a line came to, with the marks that it made, and then what a brick reported in it.
fn print(
    alloc: Global,
    outcome: Outcome,
    marks: &[Mark],
    reports: &[(BrickId, Report)],
) -> Result<Bytes, NoMem>
    ensures { IfOk result (λ text. text ≡ outcome_text outcome marks.now reports.now) }
{
    match outcome {
        Outcome::Marks => {
            let mut text = marks_text(alloc, marks)?;
            text.push_str(reports_text(alloc, reports)?.as_str())?;
            Ok(Bytes::from_vec(text.into_bytes()))
        }
        Outcome::Refused(refusal) => Ok(Bytes::from_vec(refusal.text(alloc)?.into_bytes())),
        Outcome::Idle => Ok(Bytes::from_vec(idle_text(alloc)?.into_bytes())),
    }
}

/// The group of a number, as a brick is asked for it: every number past 2^32 is as far past the last group as that is.
fn group_asked(number: u64) -> GroupId
    ensures { result.0 ≡ group_asked number }
{
    if number < 4_294_967_296 {
        GroupId(number as u32)
    } else {
        GroupId(u32::MAX)
    }
}

/// The numbers of bricks.
fn numbers_of(alloc: Global, bricks: &[BrickId]) -> Result<BrickList, NoMem>
    ensures { IfOk result (λ numbers. numbers ≡ map (λ brick. brick.0) bricks.now) }
{
    let mut numbers = Vec::with_capacity(alloc, bricks.len())?;
    for brick in bricks {
        numbers.push(u64::from(brick.0))?;
    }
    Ok(BrickList::from_vec(numbers))
}

/// What a line comes to that is no event.
fn done_if(done: bool) -> Outcome
    ensures { result ≡ marks_if done }
{
    if done { Outcome::Marks } else { Outcome::Idle }
}

impl World {
    ghost use Rattle.std.specs.Prelude.{◌≡◌, ◌<◌, ◌≤◌, ℕ, [], None, IfOk, IfSome, IfNone, OnOk, OnErr, IsErrOf, length, map};
    ghost use Rattle.std.specs.Option.{option_map};
    ghost use Rattle.lines.specs.declared.forms.Line.{Line};
    ghost use Rattle.lines.specs.declared.forms.Line.TheVariants.{Suspect, Trust, Spare};
    ghost use Rattle.replica.specs.Parts.{log_seen};
    ghost use Rattle.lines.specs.Grammar.{line_of};
    ghost use Rattle.stripe_code.specs.Codes.{coding};
    ghost use Rattle.protocol.specs.Happenings.{happenings_of};
    ghost use Rattle.world.specs.Runs.{world_of};
    ghost use Rattle.world.specs.Disks.{ShowsDisks, HasFreshDisks};
    ghost use Rattle.world.specs.Shown.{AsksBricks};
    ghost use Rattle.spares.specs.Suspicions.{suspects};
    ghost use Rattle.spares.specs.Replacements.{list_for};
    ghost use Rattle.world.specs.Suspected.{proposer_at, spare_list, suspicions_of};
    ghost use Rattle.world.specs.Steps.{Ran, RunsTo, HasRun, LeavesSome, LeavesAside, LoneScrubsEnd, Grows, Stands, log_at, learnt_at};
    ghost use Rattle.world.specs.Walks.{AreEntriesOf};

    /// Stores fresh, clocks at 0, and nothing sent. All bricks are up, or, where their stores are of the old format, down.
    pub fn new(alloc: Global, layout: Layout) -> Result<World, NoMem>
        ensures first { IfOk result (λ world. world ≡ record { layout = layout; steps = []; disks = world.disks }) }
        ensures disks { IfOk result ShowsDisks }
        // Each store was opened once: its list of frames is as long as that leaves it. That of an old store is empty.
        ensures fresh { IfOk result HasFreshDisks }
    {
        let simulation = Simulation::new(alloc, &layout)?;
        let spares = Spares::new(alloc, &layout)?;
        Ok(World {
            alloc,
            layout,
            simulation,
            spares,
        })
    }

    /// Runs a line of a schedule, given without its line feed, and answers the text that it prints.
    ///
    /// # Errors
    ///
    /// `BadLine` exactly where the bytes are no line of a schedule; nothing has changed then. `NoMemory` where no memory was left: either
    /// nothing that a disk gives or that happened has changed, or the line was run and only its text is missing. Of an operation that was to run
    /// alone, the deliveries before that stay.
    pub fn step(&mut self, content: &[u8]) -> Result<Bytes, StepFault>
        ensures ok { IfOk result (λ text. Ran self.old self.new content.now text) }
        // `suspect` and `trust` change nothing of the machine, and no `spare` ends in a list that may not keep its group.
        ensures aside { IfOk result (λ _. (line : Line) → line_of content.now ≡ Some line → LeavesAside self.old self.new line) }
        // A scrub that has run alone since it began has ended, clean or repaired, or has a message left that goes next.
        ensures scrubs { IfOk result (λ _. LoneScrubsEnd self.new) }
        ensures bad { IsErrOf result StepFault.BadLine → (line_of content.now ≡ None) × (self.new ≡ self.old) }
        ensures memory { Stands self.old self.new content.now result }
        // Whatever it answers, each disk keeps what the machine's brick keeps.
        ensures disks { ShowsDisks self.new }
    {
        let marks = self.simulation.history.marks.len();
        let reports = self.simulation.history.reports.len();
        // It tells that the layout is within its limits.
        let _ = self.layout.bricks();
        let line = match parse(self.alloc, content)? {
            Some(line) => line,
            None => return Err(StepFault::BadLine),
        };
        let outcome = self.run(&line)?;
        Ok(print(
            self.alloc,
            outcome,
            &self.simulation.history.marks[marks..],
            &self.simulation.history.reports[reports..],
        )?)
    }

    /// Runs a line, as `step` does, and makes no text of what it came to.
    ///
    /// # Errors
    ///
    /// `NoMemory` where no memory was left, and nothing that a disk gives or that happened has changed then; of an operation that was to run alone, the
    /// deliveries before that stay.
    pub fn run_line(&mut self, line: &Line) -> Result<(), NoMem>
        ensures ok { OnOk result (HasRun self.old self.new line.now) }
        ensures err { OnErr result (LeavesSome self.old self.new line.now) }
        ensures disks { ShowsDisks self.new }
    {
        match self.run(line) {
            Ok(_) => Ok(()),
            Err(refused) => Err(refused),
        }
    }

    /// Runs a line.
    fn run(&mut self, line: &Line) -> Result<Outcome, NoMem>
        ensures ok { IfOk result (λ outcome. RunsTo self.old self.new line.now outcome) }
        ensures grow { OnOk result (Grows self.old self.new) }
        ensures err { OnErr result (LeavesSome self.old self.new line.now) }
        ensures disks { ShowsDisks self.new }
    {
        match line {
            Line::Suspect { by, brick } => Ok(self.suspect(line, *by, *brick)),
            Line::Trust { by, brick } => Ok(self.trust(line, *by, *brick)),
            Line::Spare { brick, group } => self.spare(line, *brick, *group),
            _ => self.ask(line),
        }
    }

    /// One brick suspects another from now on.
    fn suspect(&mut self, line: &Line, by: u64, brick: u64) -> Outcome
        requires { line.now ≡ Suspect by brick }
        ensures ok { RunsTo self.old self.new line.now result }
        ensures grow { Grows self.old self.new }
        ensures disks { ShowsDisks self.new }
    {
        // It tells that the layout is within its limits.
        let _ = self.layout.bricks();
        let both = self.spares.suspect(member_no(by), member_no(brick));
        self.simulation.trail = Trail::ended(&self.simulation.trail, line);
        done_if(both)
    }

    /// One brick no longer suspects another.
    fn trust(&mut self, line: &Line, by: u64, brick: u64) -> Outcome
        requires { line.now ≡ Trust by brick }
        ensures ok { RunsTo self.old self.new line.now result }
        ensures grow { Grows self.old self.new }
        ensures disks { ShowsDisks self.new }
    {
        // It tells that the layout is within its limits.
        let _ = self.layout.bricks();
        let both = self.spares.trust(member_no(by), member_no(brick));
        self.simulation.trail = Trail::ended(&self.simulation.trail, line);
        done_if(both)
    }

    /// Has a brick propose the list in which those that it suspects are replaced, if a seat changes.
    fn spare(&mut self, line: &Line, brick: u64, group: u64) -> Result<Outcome, NoMem>
        requires { line.now ≡ Spare brick group }
        ensures ok { IfOk result (λ outcome. RunsTo self.old self.new line.now outcome) }
        ensures grow { OnOk result (Grows self.old self.new) }
        ensures err { OnErr result (LeavesSome self.old self.new line.now) }
        ensures disks { ShowsDisks self.new }
    {
        let Some(members) = self.spare_list(brick, group)? else {
            self.simulation.trail = Trail::ended(&self.simulation.trail, line);
            return Ok(Outcome::Idle);
        };
        let asked = Line::Propose {
            brick,
            group,
            members,
        };
        match self.simulation.run(self.alloc, &self.layout, &asked) {
            Ok(outcome) => {
                self.simulation.trail = Trail::ended(&self.simulation.trail, line);
                Ok(outcome)
            }
            Err(refused) => Err(refused),
        }
    }

    /// The list that a brick is to propose, if a seat changes. One that refuses is to propose none, and refuses that.
    fn spare_list(&self, brick: u64, group: u64) -> Result<Option<BrickList>, NoMem>
        ensures { IfOk result (λ list. list ≡ option_map (λ members. map (λ member. member.0) members) (spare_list self.now brick group)) }
    {
        // It tells that the layout is within its limits.
        let _ = self.layout.bricks();
        let by = member_no(brick);
        let view = match self.proposer(by, group_asked(group)) {
            Ok(view) => view,
            Err(_) => return Ok(Some(BrickList::from_vec(Vec::new(self.alloc)))),
        };
        match self.replaced(by, &view) {
            None => Ok(None),
            Some(members) => Ok(Some(numbers_of(self.alloc, members.as_slice())?)),
        }
    }

    /// Runs a line that speaks of no suspicions.
    fn ask(&mut self, line: &Line) -> Result<Outcome, NoMem>
        requires { AsksBricks line.now }
        ensures ok { IfOk result (λ outcome. RunsTo self.old self.new line.now outcome) }
        ensures grow { OnOk result (Grows self.old self.new) }
        ensures err { OnErr result (LeavesSome self.old self.new line.now) }
        ensures disks { ShowsDisks self.new }
    {
        match self.simulation.run(self.alloc, &self.layout, line) {
            Ok(outcome) => {
                self.simulation.trail = Trail::ended(&self.simulation.trail, line);
                Ok(outcome)
            }
            Err(refused) => match line {
                Line::Calm { .. } => {
                    self.simulation.trail = Trail::ended(&self.simulation.trail, line);
                    Err(refused)
                }
                _ => Err(refused),
            },
        }
    }

    /// The layout.
    pub fn layout(&self) -> &Layout
        ensures { result.now ≡ self.now.layout }
    {
        &self.layout
    }

    /// All marks, in order.
    pub fn marks(&self) -> &[Mark]
        ensures { result.now ≡ (world_of self.now).marks }
    {
        self.simulation.history.marks.as_slice()
    }

    /// What bricks reported of their proposals, synchronisations and scrubs, in order, each with its brick.
    pub fn reports(&self) -> &[(BrickId, Report)]
        ensures { result.now ≡ (world_of self.now).choices.reports }
    {
        self.simulation.history.reports.as_slice()
    }

    /// Every packet that was ever sent, in order.
    pub fn sent(&self) -> &[Packet]
        ensures { result.now ≡ (world_of self.now).packets }
    {
        self.simulation.history.sent.packets.as_slice()
    }

    /// Whether the message of a number, from 1 as in a line `deliver K`, was delivered to a brick that was up, or in the midst of
    /// whose handling of it a call of its disk was cut short or failed. False for a number of which no message was sent.
    pub fn was_delivered(&self, number: u64) -> bool
        ensures { result ≡ (world_of self.now).reached number }
    {
        self.simulation.history.delivered.was_delivered(number)
    }

    /// A brick's part of a stripe in the view that it has learnt, with its log, oldest version first. None exactly where there is no such
    /// group or stripe, or no such brick that is up.
    pub fn log_of(
        &self,
        brick: BrickId,
        group: GroupId,
        stripe: StripeNo,
    ) -> Option<brick_store::State<'_>>
        ensures { option_map log_seen result ≡ log_at self.now brick.0 group.0 stripe.0 }
    {
        let stripes = self.layout.group(group)?.stripes();
        if stripe.0 >= stripes {
            return None;
        }
        let brick = self.simulation.bricks.get(brick.0 as usize)?;
        match &brick.power {
            Power::Up(node) => Some(node.log(group, stripe)),
            Power::Down(_) => None,
        }
    }

    /// The view of a group that a brick has learnt. None exactly where there is no such group, or no such brick that is up.
    pub fn learnt(&self, brick: BrickId, group: GroupId) -> Option<View>
        ensures { result ≡ learnt_at self.now brick.0 group.0 }
    {
        let found = self.simulation.bricks.get(brick.0 as usize)?;
        match &found.power {
            Power::Up(node) => node.learnt(group),
            Power::Down(_) => None,
        }
    }

    /// The view of a group that a brick has learnt, where it may be asked for a proposal of the next.
    ///
    /// # Errors
    ///
    /// The first reason of these: `Down` where there is no such brick that is up; `NoStripe` where there is no such group; `Busy` where the brick
    /// has a proposal.
    pub fn proposer(&self, brick: BrickId, group: GroupId) -> Result<View, Refusal>
        ensures { result ≡ proposer_at self.now brick.0 group.0 }
    {
        let Some(found) = self.simulation.bricks.get(brick.0 as usize) else {
            return Err(Refusal::Down);
        };
        let Power::Up(node) = &found.power else {
            return Err(Refusal::Down);
        };
        let Some(view) = node.learnt(group) else {
            return Err(Refusal::NoStripe);
        };
        if node.proposing().is_some() {
            return Err(Refusal::Busy);
        }
        Ok(view)
    }

    /// Whether one brick suspects another.
    pub fn suspects(&self, by: BrickId, brick: BrickId) -> bool
        ensures { result ≡ suspects (suspicions_of self.now) by brick }
    {
        self.spares.suspects(by, brick)
    }

    /// The members of a view, each that a brick suspects replaced by a spare while one is left. None exactly where no seat changes.
    pub fn replaced(&self, brick: BrickId, view: &View) -> Option<Members>
        ensures { result ≡ list_for (suspicions_of self.now) brick view.now.members }
    {
        self.spares.list(brick, view)
    }

    /// The entries of all stripes' operations, for `happenings_among`.
    pub fn stripe_entries(&self) -> Result<StripeEntries, NoMem>
        ensures { IfOk result (λ entries. AreEntriesOf entries (world_of self.now)) }
    {
        StripeEntries::gather(self.alloc, self.simulation.history.operations.as_slice())
    }

    /// The happenings of a stripe, in order, from the entries of all stripes' operations.
    pub fn happenings_among(
        &self,
        entries: &StripeEntries,
        group: GroupId,
        stripe: StripeNo,
    ) -> Result<Vec<Happening>, NoMem>
        requires { AreEntriesOf entries.now (world_of self.now) }
        ensures { IfOk result (λ happenings. happenings.items ≡ happenings_of (world_of self.now) group.0 stripe.0) }
    {
        walks::happenings(
            self.alloc,
            self.simulation.history.operations.as_slice(),
            entries.of(group, stripe),
        )
    }

    /// The first stripe of a group, from this number on and below the other, before which no stripe from this number on has a happening. None where
    /// none of these has one.
    pub fn next_stripe(
        &self,
        entries: &StripeEntries,
        group: GroupId,
        from: u32,
        end: u32,
    ) -> Option<StripeNo>
        requires entries { AreEntriesOf entries.now (world_of self.now) }
        requires order { from ≤ end }
        ensures none { IfNone result ((s : ℕ) → from ≤ s → s < end → happenings_of (world_of self.now) group.0 s ≡ []) }
        ensures some { IfSome result (λ stripe. (from ≤ stripe.0) × (stripe.0 < end)
            × ((s : ℕ) → from ≤ s → s < stripe.0 → happenings_of (world_of self.now) group.0 s ≡ [])) }
    {
        entries.next_stripe(group, from, end)
    }

    /// The happenings of a stripe, in order. For those of many stripes, `stripe_entries` is to be called
    /// once.
    pub fn happenings(&self, group: GroupId, stripe: StripeNo) -> Result<Vec<Happening>, NoMem>
        ensures { IfOk result (λ happenings. happenings.items ≡ happenings_of (world_of self.now) group.0 stripe.0) }
    {
        let entries = self.stripe_entries()?;
        self.happenings_among(&entries, group, stripe)
    }
}
