//! Lines of commands are read, as far as turns are left for them.

ghost use Rattle.std.specs.Prelude.{◌≡◌, ◌≢◌, ◌+◌, ◌*◌, ◌<◌, ◌≤◌, ◌++◌, length, take, IfOk, IfErr, OnOk, OnErr};
ghost use Rattle.std.specs.Io.{StopsAt};
ghost use Rattle.std.specs.Io.KnownBytes.{Consumes, Keeps, IsAtEnd};
ghost use Rattle.fab_io.specs.Ends.{Kept};
ghost use Rattle.hosting.specs.Faults.{AtSource};
ghost use Rattle.hosting.specs.Reading.{ReadsLine, IsLast};

use crate::faults::HostFault;
use fab_base::{Bytes, NoMem};
use fab_io::{IoFault, Source};
use std::alloc::Global;

/// How many bytes of a line a turn pays for.
const TURN_BYTES: usize = 70_000;

/// How many bytes of a line are kept. One that has more is longer than a command may be.
const MOST_KEPT: usize = 70_003;

/// How many bytes are read at once.
const PIECE: usize = 4096;

/// A line that was read.
#[derive(Drop)]
pub struct LineRead {
    /// Its first 70,003 bytes.
    pub kept: Bytes,
    /// Whether it lacks its line feed: the source is at its end.
    pub is_last: bool,
}

/// The bytes of the line that are read next, at most so many and through its line feed; none where the source is at its end.
fn read_piece<'r, S: Source>(
    source: &mut S,
    room: &'r mut [u8],
    most: usize,
) -> Result<&'r [u8], HostFault>
    ensures few { IfOk result (λ piece. length piece.now ≤ most) }
    ensures came { IfOk result (λ piece. Consumes (S.told source.old) (S.told source.new) piece.now) }
    ensures end { IfOk result (λ piece. length piece.now ≡ 0 → 0 < most → 0 < length room.old → IsAtEnd (S.told source.new)) }
    ensures stops { IfOk result (λ piece. StopsAt piece.now 10) }
    ensures same { OnErr result (Keeps (S.told source.old) (S.told source.new)) }
    ensures only { IfErr result AtSource }
    ensures kept { Kept (S.faults source.old) (S.faults source.new) (S.sound source.old) (S.sound source.new) (result ≡ Err HostFault.Source) }
{
    let most = most.min(room.len());
    let (front, _) = room.split_at_mut(most);
    match source.read_through(b'\n', front) {
        Ok(count) => Ok(&front[..count]),
        Err(IoFault::Failed) => Err(HostFault::Source),
        Err(IoFault::NoMemory) => Err(HostFault::NoMemory),
    }
}

/// How many bytes may be read before the next turn is taken, or, where one is taken now, the one behind it.
fn bytes_paid(paid: usize) -> usize
    ensures taken { paid ≡ 0 → result ≡ TURN_BYTES }
    ensures left { paid ≢ 0 → result ≡ paid }
{
    if paid == 0 { TURN_BYTES } else { paid }
}

/// Takes a turn for the next bytes of a line where the turns so far pay for no more, and pays for them.
fn pay(turns: &mut u64, paid: &mut usize, count: usize)
    requires some { paid.old ≡ 0 → turns.old ≢ 0 }
    requires few { paid.old < TURN_BYTES }
    requires any { 0 < count }
    requires covered { (paid.old ≡ 0 → count ≤ TURN_BYTES) × (paid.old ≢ 0 → count ≤ paid.old) }
    ensures pays { turns.new * TURN_BYTES + paid.new + count ≡ turns.old * TURN_BYTES + paid.old }
    ensures few { paid.new < TURN_BYTES }
{
    if *paid == 0 {
        *turns -= 1;
        *paid = TURN_BYTES;
    }
    *paid -= count;
}

/// Reads the next line. A turn is taken as its first byte is read, and one more for each further 70,000 bytes begun; with no turn left, no byte
/// that would take one is read. `None` where no line is left, or no turn for the next byte, if there is one. The bytes that count are those of
/// the source, the line feed with them.
pub(crate) fn read_line<S: Source>(
    alloc: Global,
    source: &mut S,
    turns: &mut u64,
) -> Result<Option<LineRead>, HostFault>
    ensures reads { ReadsLine turns.old turns.new (S.told source.old) (S.told source.new) result }
    ensures only { IfErr result AtSource }
    ensures kept { Kept (S.faults source.old) (S.faults source.new) (S.sound source.old) (S.sound source.new) (result ≡ Err HostFault.Source) }
{
    let mut line = Vec::new(alloc);
    let mut paid = 0;
    let mut room = [0; PIECE];
    loop {
        if paid == 0 && *turns == 0 {
            return Ok(None);
        }
        let piece = read_piece(source, &mut room, bytes_paid(paid))?;
        let Some(last) = piece.last() else {
            return Ok(last_line(line));
        };
        pay(turns, &mut paid, piece.len());
        keep(&mut line, piece)?;
        if *last == b'\n' {
            let kept = Bytes::from_vec(line);
            return Ok(Some(LineRead {
                kept,
                is_last: false,
            }));
        }
    }
}

/// What was kept of the last line, where the source ends; `None` where that is nothing.
fn last_line(line: Vec<u8>) -> Option<LineRead>
    ensures { IsLast line.items result }
{
    if line.is_empty() {
        return None;
    }
    let kept = Bytes::from_vec(line);
    Some(LineRead {
        kept,
        is_last: true,
    })
}

/// Keeps more bytes of a line, as far as there is room for them.
fn keep(line: &mut Vec<u8>, piece: &[u8]) -> Result<(), NoMem>
    requires { length line.old.items ≤ MOST_KEPT }
    ensures { OnOk result (line.new.items ≡ take MOST_KEPT (line.old.items ++ piece.now)) }
{
    let room = MOST_KEPT - line.len();
    line.extend_from_slice(&piece[..room.min(piece.len())])?;
    Ok(())
}
