//! Ranges of volumes.

ghost use Rattle.std.specs.Prelude.{◌≡◌, ◌+◌, ◌*◌, ◌<◌, ◌≤◌, ◌^◌, length, vec_len, IfOk, IfSome, OnOk, OnErr, [], Some, None, IsSome, option_map, option_copied};
ghost use Rattle.std.specs.Option.{ForSome};
ghost use Rattle.layout.specs.Places.{length_of, volume_of};
ghost use Rattle.front.specs.Blocks.{AsksEach, WritesAll};
ghost use Rattle.front.specs.Contents.{written_by};
ghost use Rattle.front.specs.Halts.{halt_of};
ghost use Rattle.front.specs.declared.steps.Halt.TheVariants.{Stopped};
ghost use Rattle.front.specs.Inside.{first_piece, progress_of, IsSound};
ghost use Rattle.front.specs.Ranges.{begun, next_of, next_ask, after_end, stopped, FitsEnd};
ghost use Rattle.front.specs.declared.steps.RangeStep.TheVariants.{End};

use crate::pieces::{Content, StripePart, piece_at};
use crate::steps::{Halt, RangeAnswer, RangeStep, Why};
use fab_base::{Answer, Ask, Bytes, NoMem, Refusal};
use layout::Layout;
use std::alloc::Global;
use std::marker::Model;

/// A read or a write of a run of bytes of a volume, as operations one after another.
///
/// A clause sees the bytes of a data block, the operations that are left, how many data blocks are done, the bytes that came for them,
/// and how the range halted.
#[derive(Drop)]
pub struct Range<'l> {
    alloc: Global,
    layout: &'l Layout,
    volume: &'l str,
    // What is to be written, from the range's first byte on.
    content: Content<'l>,
    // The volume's data block that the range begins with, how many data blocks it has, and how many of them are done.
    first: u64,
    total: u64,
    done: u64,
    came: Vec<u8>,
    halt: Option<Halt>,
}

impl<'l> Model for Range<'l> {
    ghost use Rattle.front.specs.Ranges.{Progress};
    ghost use Rattle.front.specs.Contents.{written_by};
    ghost use Rattle.front.specs.Inside.{progress_of, IsSound};

    ghost Value = { Progress };

    ghost view = { λ range. progress_of (record {
      layout = range.layout.now;
      volume = range.volume.now;
      first = range.first;
      content = written_by range.content;
    }) range.total range.done range.came.items range.halt };

    ghost invariant = { λ range. IsSound (record {
      layout = range.layout.now;
      volume = range.volume.now;
      first = range.first;
      content = written_by range.content;
    }) range.total range.done range.halt };
}

// Why a range of bytes has no operations, if it has none.
fn halt_of(layout: &Layout, volume: &str, byte: u64, length: u64) -> Option<Halt>
    ensures value { result ≡ halt_of layout.now volume.now byte length }
    ensures within { result ≡ None → byte + length < 2 ^ 64 }
{
    let _ = layout.bricks();
    let block = u64::from(layout.block());
    if byte % block != 0 || length % block != 0 {
        return Some(Halt::Unaligned);
    }
    let end = layout.length(volume).unwrap_or(0);
    if byte <= end && length <= end - byte {
        None
    } else {
        Some(Halt::Beyond)
    }
}

// The piece that is next, if one is left.
fn first_piece(
    layout: &Layout,
    volume: &str,
    first: u64,
    total: u64,
    done: u64,
) -> Option<StripePart>
    requires some { 1 ≤ layout.now.block }
    requires fits { (first + total) * layout.now.block < 2 ^ 64 }
    ensures value { result ≡ first_piece layout.now volume.now first total done }
    ensures few { IfSome result (λ piece. done + (piece.behind + 1) ≤ total) }
{
    if done < total {
        piece_at(layout, volume, first + done, total - done)
    } else {
        None
    }
}

// The volume's name as the layout has it, if there is such a volume.
fn name_in<'l>(layout: &'l Layout, volume: &str) -> &'l str
    ensures { IsSome (volume_of layout.now volume.now) → result.now ≡ volume.now }
{
    match layout.volume(volume) {
        Some(found) => found.name(),
        None => "",
    }
}

impl<'l> Range<'l> {
    /// A read of `length` bytes of a volume, from the one of the number `byte` on. It has room for all of them.
    ///
    /// # Errors
    ///
    /// `NoMemory` where no memory was left.
    pub fn read(
        alloc: Global,
        layout: &'l Layout,
        volume: &str,
        byte: u64,
        length: u64,
    ) -> Result<Range<'l>, NoMem>
        ensures begun { IfOk result (λ range. range ≡ begun layout.now volume.now byte length None) }
        ensures each { AsksEach layout.now volume.now byte length None }
    {
        let mut range = Range::begin(alloc, layout, volume, byte, length, Content::Nothing);
        range.make_room()?;
        Ok(range)
    }

    /// A write of these bytes to a volume, from its byte of the number `byte` on.
    ///
    /// # Errors
    ///
    /// `NoMemory` where no memory was left.
    pub fn write(
        alloc: Global,
        layout: &'l Layout,
        volume: &str,
        byte: u64,
        from: &[u8],
    ) -> Result<Range<'l>, NoMem>
        ensures begun { IfOk result (λ range. range ≡ begun layout.now volume.now byte (length from.now) (Some from.now)) }
        ensures each { OnOk result (AsksEach layout.now volume.now byte (length from.now) (Some from.now)) }
        ensures bytes { WritesAll layout.now volume.now byte from.now }
    {
        let _ = layout.bricks();
        let content = Bytes::from_slice(alloc, from)?;
        Ok(Range::begin(
            alloc,
            layout,
            volume,
            byte,
            from.len() as u64,
            Content::Kept(content),
        ))
    }

    /// A write of these bytes to a volume, as [`Range::write`], which borrows them in place of a copy of its own.
    pub fn write_from(
        alloc: Global,
        layout: &'l Layout,
        volume: &str,
        byte: u64,
        from: &'l [u8],
    ) -> Range<'l>
        ensures begun { result ≡ begun layout.now volume.now byte (length from.now) (Some from.now) }
        ensures each { AsksEach layout.now volume.now byte (length from.now) (Some from.now) }
        ensures bytes { WritesAll layout.now volume.now byte from.now }
    {
        let _ = layout.bricks();
        Range::begin(
            alloc,
            layout,
            volume,
            byte,
            from.len() as u64,
            Content::Lent(from),
        )
    }

    // A range of so many bytes: a write of these, or a read.
    fn begin(
        alloc: Global,
        layout: &'l Layout,
        volume: &str,
        byte: u64,
        bytes: u64,
        content: Content<'l>,
    ) -> Range<'l>
        requires { ForSome (written_by content) (λ written. length written ≡ bytes) }
        ensures begun { result ≡ begun layout.now volume.now byte bytes (written_by content.entry) }
        ensures each { AsksEach layout.now volume.now byte bytes (written_by content.entry) }
    {
        let _ = layout.bricks();
        let block = u64::from(layout.block());
        let name = name_in(layout, volume);
        match halt_of(layout, volume, byte, bytes) {
            None => Range::over(
                alloc,
                layout,
                name,
                content,
                byte / block,
                bytes / block,
                None,
            ),
            Some(halt) => Range::over(alloc, layout, name, content, 0, 0, Some(halt)),
        }
    }

    // A range of which nothing is done.
    fn over(
        alloc: Global,
        layout: &'l Layout,
        volume: &'l str,
        content: Content<'l>,
        first: u64,
        total: u64,
        halt: Option<Halt>,
    ) -> Range<'l>
        requires { IsSound (record { layout = layout.now; volume = volume.now; first = first; content = written_by content }) total 0 halt }
        ensures { result ≡ progress_of (record { layout = layout.now; volume = volume.now; first = first; content = written_by content.entry }) total 0 [] halt }
    {
        Range {
            alloc,
            layout,
            volume,
            content,
            first,
            total,
            done: 0,
            came: Vec::new(alloc),
            halt,
        }
    }

    // Makes room for the bytes of all its data blocks.
    fn make_room(&mut self) -> Result<(), NoMem>
        ensures { self.new ≡ self.old }
    {
        let bytes = self.total * u64::from(self.layout.block());
        self.came.reserve(bytes as usize)?;
        Ok(())
    }

    /// What is to be done next: the same operation until its end is told, and at last how the range ended, with a copy of its bytes.
    ///
    /// # Errors
    ///
    /// `NoMemory` where no memory was left. Nothing has changed then.
    pub fn next(&mut self) -> Result<RangeStep, NoMem>
        ensures step { IfOk result (λ step. step ≡ next_of self.old) }
        ensures same { self.new ≡ self.old }
    {
        match self.next_ask()? {
            Some(ask) => Ok(RangeStep::Ask(ask)),
            None => Ok(RangeStep::End(self.answer()?)),
        }
    }

    /// The operation that is to be done next: the same until its end is told. `None` says that the range has ended.
    ///
    /// # Errors
    ///
    /// `NoMemory` where no memory was left.
    pub fn next_ask(&self) -> Result<Option<Ask>, NoMem>
        ensures { IfOk result (λ ask. ask ≡ next_ask self.now) }
    {
        if self.halt.is_some() {
            return Ok(None);
        }
        let next = first_piece(self.layout, self.volume, self.first, self.total, self.done);
        let Some(piece) = next else {
            return Ok(None);
        };
        let block = self.layout.block();
        let ask = piece.ask(self.alloc, self.content.bytes(), block, self.done)?;
        Ok(Some(ask))
    }

    // How the range ended, with a copy of its bytes.
    fn answer(&self) -> Result<RangeAnswer, NoMem>
        requires { next_ask self.now ≡ None }
        ensures { IfOk result (λ answer. End answer ≡ next_of self.now) }
    {
        match self.halt {
            Some(halt) => Ok(halt.answer(self.done)),
            None => {
                let came = Bytes::from_slice(self.alloc, self.came.as_slice())?;
                Ok(RangeAnswer::Done(came))
            }
        }
    }

    /// How the range ended. It hands its bytes over, and no byte is copied.
    pub fn into_answer(self) -> RangeAnswer
        requires { next_ask self ≡ None }
        ensures { End result ≡ next_of self.entry }
    {
        match self.halt {
            Some(halt) => halt.answer(self.done),
            None => RangeAnswer::Done(Bytes::from_vec(self.came)),
        }
    }

    /// Takes the end of the operation that [`Range::next`] gave: bytes for the data blocks that it reads, or that a write is done, or
    /// that it was aborted, or refused.
    ///
    /// # Errors
    ///
    /// `NoMemory` where no memory was left. Nothing has changed then.
    pub fn on_end(&mut self, end: Result<Answer, Refusal>) -> Result<(), NoMem>
        requires { FitsEnd self.old end }
        ensures after { OnOk result (self.new ≡ after_end self.old end) }
        ensures same { OnErr result (self.new ≡ self.old) }
    {
        let next = first_piece(self.layout, self.volume, self.first, self.total, self.done);
        let Some(piece) = next else {
            return Ok(());
        };
        match end {
            Ok(Answer::Data(bytes)) => {
                self.came.extend_from_slice(bytes.as_slice())?;
                self.done += piece.behind + 1;
            }
            Ok(Answer::Done) => self.done += piece.behind + 1,
            Ok(Answer::Aborted(cause)) => self.stop(Why::Cause(cause)),
            Err(refusal) => self.stop(Why::Refused(refusal)),
        }
        Ok(())
    }

    // Leaves out all that is left.
    fn stop(&mut self, why: Why)
        ensures { self.new ≡ stopped self.old (Stopped why) }
    {
        self.total = self.done;
        self.halt = Some(Halt::Stopped(why));
    }
}
