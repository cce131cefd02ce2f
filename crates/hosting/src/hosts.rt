//! The lines of a source are run over the bricks that a process hosts.

ghost use Rattle.std.specs.Prelude.{◌≡◌, ◌⊎◌, ◌+◌, ◌<◌, ◌≤◌, ◌^◌, IsOk, IfOk, IfErr, OnOk, string_bytes};
ghost use Rattle.fab_io.specs.Ends.{Kept, WriteTakes};
ghost use Rattle.lines.specs.Lines.{content};
ghost use Rattle.hosting.specs.Answers.{bad_line_text};
ghost use Rattle.hosting.specs.Commands.{line_of};
ghost use Rattle.hosting.specs.Faults.{AtSink, AtLine};
ghost use Rattle.hosting.specs.Hosting.{reads, printed, is_none, RunsLine, StopsLine, Hosts, HostsUntil};
ghost use Rattle.hosting.specs.Rounds.{KeepsBricks, told};

use crate::answers::{answer_text, bad_line_text};
use crate::clients::ClientEnd;
use crate::commands::{Access, Line, parse};
use crate::faults::HostFault;
use crate::reading::read_line;
use crate::rooms::Room;
use crate::rounds::{Bricks, HostedClient};
use fab_io::{IoFault, Link, Sink, Source};
use front::RangeAnswer;
use layout::Layout;
use lines::content_of;
use std::alloc::Global;

/// Writes a text.
///
/// # Errors
///
/// `Sink` only where the sink's count of faults rose. `NoMemory` where no memory was left.
pub fn write<K: Sink>(sink: &mut K, text: &[u8]) -> Result<(), HostFault>
    ensures content { WriteTakes (K.told sink.old) (K.told sink.new) result text.now }
    ensures only { IfErr result AtSink }
    ensures kept { Kept (K.faults sink.old) (K.faults sink.new) (K.sound sink.old) (K.sound sink.new) (result ≡ Err HostFault.Sink) }
{
    match sink.write(text) {
        Ok(()) => Ok(()),
        Err(IoFault::Failed) => Err(HostFault::Sink),
        Err(IoFault::NoMemory) => Err(HostFault::NoMemory),
    }
}

/// Answers a line that is no command.
fn refuse_line<K: Sink>(alloc: Global, sink: &mut K, number: u64) -> Result<(), HostFault>
    ensures content { WriteTakes (K.told sink.old) (K.told sink.new) result (bad_line_text number) }
    ensures only { IfErr result AtSink }
    ensures kept { Kept (K.faults sink.old) (K.faults sink.new) (K.sound sink.old) (K.sound sink.new) (result ≡ Err HostFault.Sink) }
{
    let text = bad_line_text(alloc, number)?;
    write(sink, text.as_bytes())
}

/// Whether a command reads.
fn reads(access: &Access) -> bool
    ensures { result ≡ reads access.now }
{
    match access {
        Access::Read(_) => true,
        Access::Write(_) => false,
    }
}

/// Writes the answer to a command that reads, or writes; or, where no turn is left, that there is none. Answers whether it waits.
fn print_answer<K: Sink>(
    alloc: Global,
    sink: &mut K,
    reading: bool,
    answer: &Option<RangeAnswer>,
) -> Result<bool, HostFault>
    ensures content { WriteTakes (K.told sink.old) (K.told sink.new) result (printed reading answer.now) }
    ensures waits { IfOk result (λ waits. waits ≡ is_none answer.now) }
    ensures only { IfErr result AtSink }
    ensures kept { Kept (K.faults sink.old) (K.faults sink.new) (K.sound sink.old) (K.sound sink.new) (result ≡ Err HostFault.Sink) }
{
    match answer {
        Some(answer) => {
            let text = answer_text(alloc, reading, answer)?;
            write(sink, text.as_bytes())?;
            Ok(false)
        }
        None => {
            write(sink, b"unanswered\n".as_slice())?;
            Ok(true)
        }
    }
}

impl<B: Bricks, L: Link> HostedClient<B, L> {
    /// Runs a line of this number. Answers whether its command waits, and no turn is left.
    fn run_line<K: Sink>(
        &mut self,
        alloc: Global,
        layout: &Layout,
        sink: &mut K,
        number: u64,
        line: &[u8],
    ) -> Result<bool, HostFault>
        requires few { self.old.end.sent + self.old.turns + 1 < 2 ^ 64 }
        ensures runs { IfOk result (RunsLine B.takes layout.now number self.old.end.sent self.new.end.sent self.old.turns self.new.turns
            (told (L.waiting self.old.end.link) (L.sent self.old.end.link)) (told (L.waiting self.new.end.link) (L.sent self.new.end.link))
            self.old.bricks self.new.bricks (K.told sink.old) (K.told sink.new) (line_of (content line.now))) }
        ensures few { OnOk result (self.new.end.sent + self.new.turns ≤ self.old.end.sent + self.old.turns + 1) }
        ensures stopped { IfErr result (StopsLine B.takes B.stops layout.now number self.old.end.sent self.old.turns
            (told (L.waiting self.old.end.link) (L.sent self.old.end.link)) (told (L.waiting self.new.end.link) (L.sent self.new.end.link))
            self.old.bricks self.new.bricks (K.told sink.old) (K.told sink.new) (line_of (content line.now))) }
        ensures bricks { KeepsBricks B.sound self.old.bricks self.new.bricks result }
        ensures only { IfErr result AtLine }
        ensures link { Kept (L.faults self.old.end.link) (L.faults self.new.end.link) (L.sound self.old.end.link) (L.sound self.new.end.link)
            (result ≡ Err HostFault.ClientLink) }
        ensures sink { Kept (K.faults sink.old) (K.faults sink.new) (K.sound sink.old) (K.sound sink.new) (result ≡ Err HostFault.Sink) }
    {
        match parse(alloc, content_of(line))? {
            None => {
                refuse_line(alloc, sink, number)?;
                Ok(false)
            }
            Some(Line::Nothing) => Ok(false),
            Some(Line::Run(command)) => {
                let answer = self.run_command(alloc, layout, &command)?;
                print_answer(alloc, sink, reads(&command.access), &answer)
            }
        }
    }

    /// The same as `host`, for a client that sent nothing yet.
    fn run_lines<S: Source, K: Sink>(
        &mut self,
        alloc: Global,
        layout: &Layout,
        source: &mut S,
        sink: &mut K,
    ) -> Result<(), HostFault>
        requires begins { self.old.end.sent ≡ 0 }
        ensures hosts { OnOk result (Hosts B.takes layout.now self.old.turns (S.told source.old) (S.told source.new)
            (told (L.waiting self.old.end.link) (L.sent self.old.end.link)) (told (L.waiting self.new.end.link) (L.sent self.new.end.link))
            self.old.bricks self.new.bricks (K.told sink.old) (K.told sink.new)) }
        ensures stopped { IfErr result (HostsUntil B.takes B.stops layout.now self.old.turns (S.told source.old) (S.told source.new)
            (told (L.waiting self.old.end.link) (L.sent self.old.end.link)) (told (L.waiting self.new.end.link) (L.sent self.new.end.link))
            self.old.bricks self.new.bricks (K.told sink.old) (K.told sink.new)) }
        ensures bricks { KeepsBricks B.sound self.old.bricks self.new.bricks result }
        ensures link { Kept (L.faults self.old.end.link) (L.faults self.new.end.link) (L.sound self.old.end.link) (L.sound self.new.end.link)
            (result ≡ Err HostFault.ClientLink) }
        ensures source { Kept (S.faults source.old) (S.faults source.new) (S.sound source.old) (S.sound source.new) (result ≡ Err HostFault.Source) }
        ensures sink { Kept (K.faults sink.old) (K.faults sink.new) (K.sound sink.old) (K.sound sink.new) (result ≡ Err HostFault.Sink) }
    {
        // The count of turns is read, so that its range is known.
        let _turns = self.turns;
        let mut number = 0;
        loop {
            let Some(line) = read_line(alloc, source, &mut self.turns)? else {
                return Ok(());
            };
            number += 1;
            let waits = self.run_line(alloc, layout, sink, number, line.kept.as_slice())?;
            if waits || line.is_last {
                return Ok(());
            }
        }
    }
}

/// Runs the lines of a source over the bricks of a layout, and writes the answers of their commands. The bricks and the client's link come back as they
/// are then.
///
/// A line takes a turn as its first byte is read, and one more for each further 70,000 bytes begun. While its command is open, each further
/// turn is a round: each brick takes a turn, in order of number, and then the client's link is looked at once. With no turn left no byte is
/// read that would take one. So the run ends when the turns are used up, or at the end of the source. A line that the turns are not enough for is
/// read as far as they go, and is no command.
///
/// # Errors
///
/// `Disk`, `Link` and `Clock` only where the bricks were stopped by that fault; `ClientLink`, `Source` and `Sink` only where that thing's count
/// of faults rose; `NoMemory` where no memory was left. What was done until then stays done: the bricks took their turns in each round before. What
/// was read and the rounds are within the turns then too.
pub fn host<B: Bricks, L: Link, S: Source, K: Sink>(
    alloc: Global,
    layout: &Layout,
    bricks: B,
    link: L,
    source: &mut S,
    sink: &mut K,
    turns: u64,
) -> (B, L, Result<(), HostFault>)
    ensures hosts { OnOk result.2 (Hosts B.takes layout.now turns (S.told source.old) (S.told source.new) (told (L.waiting link) (L.sent link))
        (told (L.waiting result.1) (L.sent result.1)) bricks result.0 (K.told sink.old) (K.told sink.new)) }
    ensures stopped { IfErr result.2 (HostsUntil B.takes B.stops layout.now turns (S.told source.old) (S.told source.new)
        (told (L.waiting link) (L.sent link)) (told (L.waiting result.1) (L.sent result.1)) bricks result.0 (K.told sink.old) (K.told sink.new)) }
    ensures bricks { KeepsBricks B.sound bricks result.0 result.2 }
    ensures link { Kept (L.faults link) (L.faults result.1) (L.sound link) (L.sound result.1) (result.2 ≡ Err HostFault.ClientLink) }
    ensures source { Kept (S.faults source.old) (S.faults source.new) (S.sound source.old) (S.sound source.new) (result.2 ≡ Err HostFault.Source) }
    ensures sink { Kept (K.faults sink.old) (K.faults sink.new) (K.sound sink.old) (K.sound sink.new) (result.2 ≡ Err HostFault.Sink) }
    // Over sound bricks and ends it comes to its end, or finds no memory.
    ensures sound { B.sound bricks → L.sound link → S.sound source.old → K.sound sink.old → IsOk result.2 ⊎ (result.2 ≡ Err HostFault.NoMemory) }
{
    let room = match Room::new(alloc) {
        Ok(room) => room,
        Err(_) => return (bricks, link, Err(HostFault::NoMemory)),
    };
    let end = ClientEnd {
        link,
        room,
        sent: 0,
    };
    let mut client = HostedClient { bricks, end, turns };
    let result = client.run_lines(alloc, layout, source, sink);
    let HostedClient {
        bricks,
        end,
        turns: _,
    } = client;
    let ClientEnd {
        link,
        room: _,
        sent: _,
    } = end;
    (bricks, link, result)
}
