//! What stands before the schedule of an input, or before the text that is to be audited.

ghost use Rattle.std.specs.Prelude.{◌≡◌, ◌≢◌, IfOk};
ghost use Rattle.std.specs.Io.KnownBytes.{prepend_known};
ghost use Rattle.fab_io.specs.Ends.{Kept};
ghost use Rattle.replay.specs.Turns.{HeadMeans};
ghost use Rattle.replay.specs.Readings.{HeadReads};

use crate::endings::Halt;
use crate::turns::next;
use fab_io::Source;
use layout::texts::LAYOUT_LIMIT;
use lines::{LineReader, NextLine, is_layout_end};
use std::alloc::Global;

/// What stands before the schedule of an input.
#[derive(Drop)]
pub enum Head {
    /// The text before the first line `---`, which was read too.
    Text(Vec<u8>),
    /// The text before a line `---` that lacks its line feed: the input ends there.
    Alone(Vec<u8>),
    /// A text past its limit.
    TooLong,
    /// There is no line `---`.
    Endless,
}

/// Reads the text before the line `---`, and that line.
///
/// # Errors
///
/// `Source` where the source failed, `Memory` where no memory was left. What was read by then decides nothing.
pub fn read_head<S: Source>(
    alloc: Global,
    source: &mut S,
    unread: &mut LineReader,
) -> Result<Head, Halt>
    ensures head { IfOk result (λ head. HeadMeans (prepend_known unread.old (S.told source.old))
        (prepend_known unread.new (S.told source.new)) head) }
    ensures reads { HeadReads unread.old unread.new (S.told source.old) (S.told source.new) (S.came source.new)
        (source.new ≡ source.old) result }
    ensures kept { Kept (S.faults source.old) (S.faults source.new) (S.sound source.old) (S.sound source.new)
        (result ≡ Err Halt.Source) }
    ensures cause { result ≢ Err Halt.Sink }
{
    let mut head = Vec::new(alloc);
    for _ in 0..u64::MAX {
        match next(source, unread, LAYOUT_LIMIT)? {
            NextLine::Whole(line) => {
                if is_layout_end(line.as_slice()) {
                    return Ok(Head::Text(head));
                }
                if line.len() > LAYOUT_LIMIT - head.len() {
                    return Ok(Head::TooLong);
                }
                head.extend_from_slice(line.as_slice())?;
            }
            NextLine::Last(line) => {
                if is_layout_end(line.as_slice()) {
                    return Ok(Head::Alone(head));
                }
                if line.len() > LAYOUT_LIMIT - head.len() {
                    return Ok(Head::TooLong);
                }
                return Ok(Head::Endless);
            }
            NextLine::Long => return Ok(Head::TooLong),
            NextLine::Ended => return Ok(Head::Endless),
        }
    }
    // No memory holds so many lines.
    Err(Halt::Memory)
}
