//! A made run: lines that are drawn, each as soon as the one before it was run, and what sums them up.

ghost use Rattle.std.specs.Prelude.{◌≡◌, ◌≢◌, ◌≤◌, IfOk, OnOk, string_bytes};
ghost use Rattle.fab_io.specs.Ends.{Kept};
ghost use Rattle.fab_base.specs.Layouts.{group_of, most_groups};
ghost use Rattle.world.specs.Runs.{world_of};
ghost use Rattle.world.specs.Walks.{AreEntriesOf};
ghost use Rattle.printed.specs.Outputs.{stripes_of};
ghost use Rattle.printed.specs.Spellings.{WorldReads};
ghost use Rattle.replay.specs.MadeRuns.{happenings_to, happenings_below, total_text, summary_text, SumsUp, MakePrints};
ghost use Rattle.replay.specs.DrawnRuns.{RunsDrawn, DrawsAll};

use crate::endings::{Halt, RunResult};
use crate::spellings::look_at_reports;
use crate::texts::count_text;
use crate::turns::{MOST_LINES, write};
use fab_base::{GroupId, NoMem};
use fab_io::Sink;
use made::{Maker, made_disk};
use reg_model::Happening;
use std::alloc::Global;
use world::{StripeEntries, World};

/// The most groups of a layout.
const MOST_GROUPS: u32 = 64;

/// Draws a line and runs it.
fn run_next(alloc: Global, world: &mut World, maker: &mut Maker) -> Result<(), NoMem>
    ensures { OnOk result (RunsDrawn world.old world.new maker.old maker.new) }
{
    let sent = world.sent().len() as u64;
    let line = maker.draw_line(alloc, sent)?;
    match world.run_line(&line) {
        Ok(()) => Ok(()),
        Err(refused) => Err(refused),
    }
}

/// Draws so many lines, and runs each before the next is drawn.
fn run_made(alloc: Global, world: &mut World, seed: u64, lines: u64) -> Result<(), NoMem>
    ensures { OnOk result (DrawsAll world.old world.new seed lines) }
{
    let mut maker = Maker::new(seed);
    for _count in 0..lines {
        run_next(alloc, world, &mut maker)?;
    }
    Ok(())
}

/// The happenings of a group's stripes. Those of which no operation was are passed over.
fn stripes_happenings(
    alloc: Global,
    world: &World,
    entries: &StripeEntries,
    group: GroupId,
    stripes: u32,
) -> Result<Vec<Happening>, NoMem>
    requires { AreEntriesOf entries.now (world_of world.now) }
    ensures { IfOk result (λ all. all.items ≡ happenings_to (world_of world.now) group.0 stripes) }
{
    let mut all = Vec::new(alloc);
    let mut next = 0;
    while let Some(stripe) = world.next_stripe(entries, group, next, stripes) {
        let happenings = world.happenings_among(entries, group, stripe)?;
        all.extend_from_slice(happenings.as_slice())?;
        next = stripe.0 + 1;
    }
    Ok(all)
}

/// The happenings of the stripes of the group of this number, if there is one.
fn group_happenings(
    alloc: Global,
    world: &World,
    entries: &StripeEntries,
    group: GroupId,
) -> Result<Vec<Happening>, NoMem>
    requires { AreEntriesOf entries.now (world_of world.now) }
    ensures { IfOk result (λ all. all.items
        ≡ happenings_to (world_of world.now) group.0 (stripes_of (group_of world.now.layout group.0))) }
{
    match world.layout().group(group) {
        Some(found) => stripes_happenings(alloc, world, entries, group, found.stripes()),
        None => Ok(Vec::new(alloc)),
    }
}

/// The happenings of all stripes.
#[tactic(auto, using(crate::proofs::HappeningLists::below_rules))]
fn all_happenings(alloc: Global, world: &World) -> Result<Vec<Happening>, NoMem>
    ensures { IfOk result (λ all. all.items ≡ happenings_below world.now.layout (world_of world.now) most_groups) }
{
    let entries = world.stripe_entries()?;
    let mut all = Vec::new(alloc);
    for number in 0..MOST_GROUPS {
        let happenings = group_happenings(alloc, world, &entries, GroupId(number))?;
        all.extend_from_slice(happenings.as_slice())?;
    }
    Ok(all)
}

/// How many happenings there are, as they are told.
fn total_text(alloc: Global, world: &World) -> Result<String, NoMem>
    ensures { IfOk result (λ text. string_bytes text ≡ total_text world.now.layout (world_of world.now)) }
{
    let all = all_happenings(alloc, world)?;
    let total = all.len();
    Ok(format!(in alloc; "happened total {total}\n")?)
}

/// What sums up a made run of so many lines. What the marks that it counts tell has a spelling, and so has what bricks reported.
fn summary_text(alloc: Global, world: &World, lines: u64) -> Result<String, NoMem>
    ensures text { IfOk result (λ text. string_bytes text ≡ summary_text world.now.layout (world_of world.now) lines) }
    ensures told { IfOk result (λ text. WorldReads (world_of world.now)) }
{
    let mut text = count_text(alloc, lines, world.marks())?;
    let total = total_text(alloc, world)?;
    look_at_reports(world.reports());
    text.push_str(total.as_str())?;
    Ok(text)
}

/// Runs the schedule of a seed, of so many lines, and gives what sums it up.
fn made_text(alloc: Global, seed: u64, lines: u64) -> Result<String, NoMem>
    requires { lines ≤ MOST_LINES }
    ensures { IfOk result (λ text. SumsUp seed lines (string_bytes text)) }
{
    let layout = made_disk(alloc)?;
    let mut world = World::new(alloc, layout)?;
    run_made(alloc, &mut world, seed, lines)?;
    let text = summary_text(alloc, &world, lines)?;
    Ok(text)
}

/// Runs the schedule of a seed, of so many lines, writes what sums it up, and answers how that ended.
pub(crate) fn make<K: Sink>(
    alloc: Global,
    seed: u64,
    lines: u64,
    sink: &mut K,
) -> Result<RunResult, Halt>
    requires { lines ≤ MOST_LINES }
    ensures prints { MakePrints seed lines (K.told sink.old) (K.told sink.new) result }
    ensures kept { Kept (K.faults sink.old) (K.faults sink.new) (K.sound sink.old) (K.sound sink.new)
        (result ≡ Err Halt.Sink) }
    ensures cause { result ≢ Err Halt.Source }
{
    let text = match made_text(alloc, seed, lines) {
        Ok(text) => text,
        Err(_) => return Err(Halt::Memory),
    };
    match write(sink, text.as_bytes()) {
        Ok(()) => Ok(RunResult::Whole),
        Err(halt) => Err(halt),
    }
}
