//! A client's session is served: its bytes are read, its commands are run, and what the session says is sent.

ghost use Rattle.std.specs.Prelude.{◌≡◌, ◌⊎◌, ◌+◌, ◌<◌, ◌≤◌, ◌^◌, List, length, IsOk, IfOk, IfErr, OnOk, OnErr};
ghost use Rattle.std.specs.Io.KnownBytes.{Consumes, Keeps, IsAtEnd};
ghost use Rattle.fab_io.specs.Ends.{Kept};
ghost use Rattle.hosting.specs.Faults.{AtCommand, AtSource};
ghost use Rattle.hosting.specs.Rounds.{Heard, KeepsBricks, RunsRange, StopsRange, Took, told};
ghost use Rattle.nbd_front.specs.Lives.{owed};
ghost use Rattle.nbd_front.specs.Sessions.{Asks, ReadsNoFurther, Waits, asked_of, move_of, shown};
ghost use Rattle.nbd_hosting.specs.Serving.{ServesSession, ServesUntil, outside, range_of};
ghost use Rattle.nbd_hosting.specs.Steps.{ReadsClient, RunsAsked, ServesOn};

use fab_base::NoMem;
use fab_io::{IoFault, Link, Sink, Source};
use front::{Range, RangeAnswer};
use hosting::{Bricks, ClientEnd, HostFault, HostedClient, Room, write};
use layout::Layout;
use nbd_front::{Command, End, Session, Step};
use std::alloc::Global;

/// How many bytes are read at once at most.
const PIECE: usize = 65_536;

/// Bytes of the client, at most so many; none where the source is at its end.
fn read_piece<'r, S: Source>(
    source: &mut S,
    room: &'r mut [u8],
    most: usize,
) -> Result<&'r [u8], HostFault>
    ensures few { IfOk result (λ piece. length piece.now ≤ most) }
    ensures came { IfOk result (λ piece. Consumes (S.told source.old) (S.told source.new) piece.now) }
    ensures end { IfOk result (λ piece. length piece.now ≡ 0 → 0 < most → 0 < length room.old → IsAtEnd (S.told source.new)) }
    ensures same { OnErr result (Keeps (S.told source.old) (S.told source.new)) }
    ensures only { IfErr result AtSource }
    ensures kept { Kept (S.faults source.old) (S.faults source.new) (S.sound source.old) (S.sound source.new) (result ≡ Err HostFault.Source) }
{
    let most = most.min(room.len());
    let (front, _) = room.split_at_mut(most);
    match source.read(front) {
        Ok(count) => Ok(&front[..count]),
        Err(IoFault::Failed) => Err(HostFault::Source),
        Err(IoFault::NoMemory) => Err(HostFault::NoMemory),
    }
}

/// The range of bytes of a volume that a command reads or writes. It borrows what is written.
fn range_of<'s>(alloc: Global, layout: &'s Layout, command: Command<'s>) -> Result<Range<'s>, NoMem>
    ensures { IfOk result (λ range. range ≡ range_of layout.now (shown command.entry)) }
{
    match command {
        Command::Read {
            volume,
            byte,
            length,
        } => Range::read(alloc, layout, volume, byte, length),
        Command::Write {
            volume,
            byte,
            bytes,
        } => Ok(Range::write_from(alloc, layout, volume, byte, bytes)),
    }
}

/// Runs the command that a session asks, at the first brick. `None` says that no turn is left, and the command is open.
fn run_command<B: Bricks, L: Link>(
    alloc: Global,
    layout: &Layout,
    client: &mut HostedClient<B, L>,
    session: &Session<'_>,
) -> Result<Option<RangeAnswer>, HostFault>
    requires asks { move_of session.now ≡ Asks }
    requires few { client.old.end.sent + client.old.turns + 1 < 2 ^ 64 }
    ensures runs { IfOk result (λ answer. (rounds : List Heard) × RunsRange layout.now.port (range_of layout.now (asked_of session.now))
        client.old.end.sent client.new.end.sent client.old.turns client.new.turns (told (L.waiting client.old.end.link) (L.sent client.old.end.link))
        (told (L.waiting client.new.end.link) (L.sent client.new.end.link)) rounds answer × Took B.takes rounds client.old.bricks client.new.bricks) }
    ensures few { OnOk result (client.new.end.sent + client.new.turns ≤ client.old.end.sent + client.old.turns + 1) }
    ensures stopped { IfErr result (StopsRange B.takes B.stops layout.now.port (range_of layout.now (asked_of session.now)) client.old.end.sent
        client.old.turns (told (L.waiting client.old.end.link) (L.sent client.old.end.link)) (told (L.waiting client.new.end.link)
        (L.sent client.new.end.link)) client.old.bricks client.new.bricks) }
    ensures bricks { KeepsBricks B.sound client.old.bricks client.new.bricks result }
    ensures only { IfErr result AtCommand }
    ensures kept { Kept (L.faults client.old.end.link) (L.faults client.new.end.link) (L.sound client.old.end.link) (L.sound client.new.end.link)
        (result ≡ Err HostFault.ClientLink) }
{
    let _ = layout.bricks();
    let port = layout.port();
    match range_of(alloc, layout, session.command()) {
        Ok(range) => client.run_range(alloc, layout, port, range),
        Err(fault) => Err(HostFault::from(fault)),
    }
}

/// Reads bytes of the part that a session reads next. A turn is taken for them if they are the first of an option or of a request. Answers how the
/// session ends here, if it does: no turn is left, or no byte.
fn read_part<S: Source>(
    session: &mut Session<'_>,
    turns: &mut u64,
    source: &mut S,
    room: &mut [u8],
) -> Result<Option<End>, HostFault>
    requires waits { move_of session.old ≡ Waits }
    requires some { 0 < length room.old }
    ensures reads { ReadsClient session.old session.new turns.old turns.new (S.told source.old) (S.told source.new) result }
    ensures within { OnOk result (ReadsNoFurther session.old → ReadsNoFurther session.new) }
    ensures kept { Kept (S.faults source.old) (S.faults source.new) (S.sound source.old) (S.sound source.new) (result ≡ Err HostFault.Source) }
{
    let takes_turn = session.wants_turn();
    if takes_turn && *turns == 0 {
        return Ok(Some(End::Turns));
    }
    let piece = read_piece(source, room, session.wanted())?;
    if piece.is_empty() {
        return Ok(Some(End::Eof));
    }
    session.feed(piece)?;
    *turns -= u64::from(takes_turn);
    Ok(None)
}

/// Runs the command that a session asks, and tells the session its answer. Answers how the session ends here, if it does: no turn is left.
fn answer_command<B: Bricks, L: Link>(
    alloc: Global,
    layout: &Layout,
    client: &mut HostedClient<B, L>,
    session: &mut Session<'_>,
) -> Result<Option<End>, HostFault>
    requires asks { move_of session.old ≡ Asks }
    requires few { client.old.end.sent + client.old.turns + 1 < 2 ^ 64 }
    ensures runs { RunsAsked B.takes B.stops layout.now session.old session.new client.old.turns client.new.turns client.old.end.sent client.new.end.sent
        (told (L.waiting client.old.end.link) (L.sent client.old.end.link)) (told (L.waiting client.new.end.link) (L.sent client.new.end.link))
        client.old.bricks client.new.bricks result }
    ensures within { OnOk result (ReadsNoFurther session.old → ReadsNoFurther session.new) }
    ensures bricks { KeepsBricks B.sound client.old.bricks client.new.bricks result }
    ensures only { IfErr result AtCommand }
    ensures kept { Kept (L.faults client.old.end.link) (L.faults client.new.end.link) (L.sound client.old.end.link) (L.sound client.new.end.link)
        (result ≡ Err HostFault.ClientLink) }
{
    match run_command(alloc, layout, client, session)? {
        Some(answer) => {
            session.answer(answer);
            Ok(None)
        }
        None => Ok(Some(End::Turns)),
    }
}

/// Does what a session wants next: bytes of the client are read, bytes are sent to it, or its command is run. Answers how the session ends here, if it
/// does.
fn take_step<B: Bricks, L: Link, S: Source, K: Sink>(
    alloc: Global,
    layout: &Layout,
    client: &mut HostedClient<B, L>,
    session: &mut Session<'_>,
    room: &mut [u8],
    source: &mut S,
    sink: &mut K,
) -> Result<Option<End>, HostFault>
    requires few { client.old.end.sent + client.old.turns + owed session.old < 2 ^ 64 }
    requires some { 0 < length room.old }
    ensures serves { ServesOn B.takes B.stops layout.now
        (outside (S.told source.old) (told (L.waiting client.old.end.link) (L.sent client.old.end.link)) client.old.bricks (K.told sink.old))
        (outside (S.told source.new) (told (L.waiting client.new.end.link) (L.sent client.new.end.link)) client.new.bricks (K.told sink.new))
        session.old session.new client.old.turns client.new.turns client.old.end.sent client.new.end.sent result }
    ensures bricks { KeepsBricks B.sound client.old.bricks client.new.bricks result }
    ensures link { Kept (L.faults client.old.end.link) (L.faults client.new.end.link) (L.sound client.old.end.link) (L.sound client.new.end.link)
        (result ≡ Err HostFault.ClientLink) }
    ensures source { Kept (S.faults source.old) (S.faults source.new) (S.sound source.old) (S.sound source.new) (result ≡ Err HostFault.Source) }
    ensures sink { Kept (K.faults sink.old) (K.faults sink.new) (K.sound sink.old) (K.sound sink.new) (result ≡ Err HostFault.Sink) }
{
    match session.next()? {
        Step::Need => read_part(session, &mut client.turns, source, room),
        Step::Send(bytes) => {
            write(sink, bytes.as_slice())?;
            Ok(None)
        }
        Step::Ask => answer_command(alloc, layout, client, session),
        Step::Ended(end) => Ok(Some(end)),
    }
}

/// The same as `serve_session`, for a client of the bricks that sent nothing yet.
fn serve<B: Bricks, L: Link, S: Source, K: Sink>(
    alloc: Global,
    layout: &Layout,
    client: &mut HostedClient<B, L>,
    source: &mut S,
    sink: &mut K,
) -> Result<End, HostFault>
    requires begins { client.old.end.sent ≡ 0 }
    ensures serves { IfOk result (ServesSession B.takes layout.now client.old.turns
        (outside (S.told source.old) (told (L.waiting client.old.end.link) (L.sent client.old.end.link)) client.old.bricks (K.told sink.old))
        (outside (S.told source.new) (told (L.waiting client.new.end.link) (L.sent client.new.end.link)) client.new.bricks (K.told sink.new))) }
    ensures stopped { IfErr result (ServesUntil B.takes B.stops layout.now client.old.turns
        (outside (S.told source.old) (told (L.waiting client.old.end.link) (L.sent client.old.end.link)) client.old.bricks (K.told sink.old))
        (outside (S.told source.new) (told (L.waiting client.new.end.link) (L.sent client.new.end.link)) client.new.bricks (K.told sink.new))) }
    ensures bricks { KeepsBricks B.sound client.old.bricks client.new.bricks result }
    ensures link { Kept (L.faults client.old.end.link) (L.faults client.new.end.link) (L.sound client.old.end.link) (L.sound client.new.end.link)
        (result ≡ Err HostFault.ClientLink) }
    ensures source { Kept (S.faults source.old) (S.faults source.new) (S.sound source.old) (S.sound source.new) (result ≡ Err HostFault.Source) }
    ensures sink { Kept (K.faults sink.old) (K.faults sink.new) (K.sound sink.old) (K.sound sink.new) (result ≡ Err HostFault.Sink) }
{
    let _turns = client.turns;
    let mut session = Session::new(alloc, layout);
    let mut room = vec![in alloc; 0u8; PIECE]?;
    loop {
        if let Some(end) = take_step(
            alloc,
            layout,
            client,
            &mut session,
            &mut room,
            source,
            sink,
        )? {
            return Ok(end);
        }
    }
}

/// Serves one client's session over NBD by the bricks of a layout. The bricks and the client's link come back as they are then.
///
/// An option or a request takes a turn as its first byte is read. While a command is open, each further turn is a round: each brick takes a turn,
/// in order of number, and then the client's link is looked at once. So the session ends when a turn is wanted and none is left, at the end of
/// the source, or by what the client sends.
///
/// # Errors
///
/// `Disk`, `Link` and `Clock` only where the bricks were stopped by that fault; `ClientLink`, `Source` and `Sink` only where that thing's count
/// of faults rose; `NoMemory` where no memory was left. What was done until then stays done.
pub fn serve_session<B: Bricks, L: Link, S: Source, K: Sink>(
    alloc: Global,
    layout: &Layout,
    bricks: B,
    link: L,
    source: &mut S,
    sink: &mut K,
    turns: u64,
) -> (B, L, Result<End, HostFault>)
    ensures serves { IfOk result.2 (ServesSession B.takes layout.now turns
        (outside (S.told source.old) (told (L.waiting link) (L.sent link)) bricks (K.told sink.old))
        (outside (S.told source.new) (told (L.waiting result.1) (L.sent result.1)) result.0 (K.told sink.new))) }
    ensures stopped { IfErr result.2 (ServesUntil B.takes B.stops layout.now turns
        (outside (S.told source.old) (told (L.waiting link) (L.sent link)) bricks (K.told sink.old))
        (outside (S.told source.new) (told (L.waiting result.1) (L.sent result.1)) result.0 (K.told sink.new))) }
    ensures bricks { KeepsBricks B.sound bricks result.0 result.2 }
    ensures link { Kept (L.faults link) (L.faults result.1) (L.sound link) (L.sound result.1) (result.2 ≡ Err HostFault.ClientLink) }
    ensures source { Kept (S.faults source.old) (S.faults source.new) (S.sound source.old) (S.sound source.new) (result.2 ≡ Err HostFault.Source) }
    ensures sink { Kept (K.faults sink.old) (K.faults sink.new) (K.sound sink.old) (K.sound sink.new) (result.2 ≡ Err HostFault.Sink) }
    // Over sound bricks and ends it comes to its end, or finds no memory.
    ensures sound { B.sound bricks → L.sound link → S.sound source.old → K.sound sink.old → IsOk result.2 ⊎ (result.2 ≡ Err HostFault.NoMemory) }
{
    let room = match Room::new(alloc) {
        Ok(room) => room,
        Err(_) => return (bricks, link, Err(HostFault::NoMemory)),
    };
    let end = ClientEnd {
        link,
        room,
        sent: 0,
    };
    let mut client = HostedClient { bricks, end, turns };
    let result = serve(alloc, layout, &mut client, source, sink);
    let HostedClient {
        bricks,
        end,
        turns: _,
    } = client;
    let ClientEnd {
        link,
        room: _,
        sent: _,
    } = end;
    (bricks, link, result)
}
