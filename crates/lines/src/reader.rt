// Reading an input line by line.
ghost use Rattle.std.specs.Prelude.{◌≡◌, ◌+◌, ◌<◌, ◌≤◌, [], ◌==◌, length, IfOk, OnOk, OnErr, IfSome, None, position, take, max};
ghost use Rattle.std.specs.Io.KnownBytes.{Keeps, IsAtEnd, prepend_known};
ghost use Rattle.fab_io.specs.Ends.{Kept};
ghost use Rattle.lines.specs.Lines.{is_line_feed};
ghost use Rattle.lines.specs.Reading.{Says, LineReads, taken_by};
ghost use Rattle.lines.specs.LineReader.{Takes, TakesLast, Fills};

use crate::contents::{content_of, without_return};
use fab_base::Bytes;
use fab_io::{IoFault, Source};
use std::alloc::{AllocError, Global};
use std::marker::Model;

/// How many bytes are asked of a source at a time.
pub const READ_LEN: usize = 4096;

/// An answer to the question for the next line.
#[derive(Drop)]
pub enum NextLine {
    /// The next line, with its line feed. It was taken.
    Whole(Bytes),
    /// The last line, which lacks its line feed. It was taken, and the source is at its end.
    Last(Bytes),
    /// The next line has more bytes than the limit allows. Nothing was taken.
    Long,
    /// No line is left.
    Ended,
}

/// Bytes that were read from a source and not yet taken. They are the first of what is left of the input; the others
/// are still in the source.
#[derive(Drop)]
pub struct LineReader {
    bytes: Vec<u8>,
    taken: usize,
}

impl Model for LineReader {
    ghost use Rattle.std.specs.Prelude.{List, ℕ, ◌≤◌, drop, length};

    ghost Value = { List ℕ };

    ghost view = { λ u. drop u.taken u.bytes.items };

    ghost invariant = { λ u. u.taken ≤ length u.bytes.items };
}

impl LineReader {
    /// Nothing was read so far.
    pub fn new(alloc: Global) -> LineReader
        ensures { result ≡ [] }
    {
        LineReader {
            bytes: Vec::new(alloc),
            taken: 0,
        }
    }

    /// Takes the next line of the input, which is these bytes and then those of the source.
    ///
    /// A line has at most `limit` bytes, its line feed and the one carriage return before that not counted. Where the
    /// next one has more, the answer is [`NextLine::Long`], as soon as that is seen. No more than the limit and
    /// [`READ_LEN`] and two more bytes are held. The source is read only while what is held is of a line that was begun.
    ///
    /// `Failed` comes only where the source failed, and `NoMemory` where there was no memory. Neither takes anything.
    pub fn next_line<S: Source>(
        &mut self,
        source: &mut S,
        limit: usize,
    ) -> Result<NextLine, IoFault>
        ensures says { IfOk result (λ piece. Says limit (prepend_known self.old (S.told source.old))
            (prepend_known self.new (S.told source.new)) piece) }
        ensures err { OnErr result (Keeps (prepend_known self.old (S.told source.old))
            (prepend_known self.new (S.told source.new))) }
        ensures reads { LineReads limit self.old self.new (S.told source.old) (S.told source.new) (S.came source.new)
            (source.new ≡ source.old) (taken_by result) (result ≡ Err IoFault.Failed) }
        ensures held { length self.new ≤ max (length self.old) (limit + 2 + READ_LEN) }
        ensures kept { Kept (S.faults source.old) (S.faults source.new) (S.sound source.old) (S.sound source.new)
            (result ≡ Err IoFault.Failed) }
    {
        let mut scanned = 0;
        loop {
            let held = self.as_slice().len();
            if let Some(at) = self.first_line_feed(scanned) {
                return Ok(self.take(at + 1, limit)?);
            }
            if without_return(self.as_slice()).len() > limit {
                return Ok(NextLine::Long);
            }
            scanned = held;
            if self.fill(source)? == 0 {
                return Ok(self.take_last(limit)?);
            }
        }
    }

    /// The bytes.
    fn as_slice(&self) -> &[u8]
        ensures value { result.now ≡ self.now }
        ensures len { length result.now ≡ length self.now }
    {
        &self.bytes[self.taken..]
    }

    /// The place of the first line feed, which is not among the bytes that were scanned before.
    fn first_line_feed(&self, scanned: usize) -> Option<usize>
        requires scanned { scanned ≤ length self.now }
        requires none { position is_line_feed (take scanned self.now) ≡ None }
        ensures value { result ≡ position is_line_feed self.now }
        ensures within { IfSome result (λ at. at < length self.now) }
    {
        let (_, rest) = self.as_slice().split_at(scanned);
        match line_feed_in(rest) {
            None => None,
            Some(at) => Some(scanned + at),
        }
    }

    /// Takes the first bytes, as a line, where that is within the limit.
    fn take(&mut self, len: usize, limit: usize) -> Result<NextLine, AllocError>
        requires { len ≤ length self.old }
        ensures ok { IfOk result (λ piece. Takes limit len self.old self.new piece) }
        ensures err { OnErr result (self.new ≡ self.old) }
    {
        let alloc: Global = *self.bytes.allocator();
        let line = &self.bytes[self.taken..self.taken + len];
        if content_of(line).len() > limit {
            return Ok(NextLine::Long);
        }
        let line = Vec::from_slice(alloc, line)?;
        self.taken += len;
        Ok(NextLine::Whole(Bytes::from_vec(line)))
    }

    /// Takes all the bytes, as the last line, where there are any and that is within the limit.
    fn take_last(&mut self, limit: usize) -> Result<NextLine, AllocError>
        ensures ok { IfOk result (λ piece. TakesLast limit self.old self.new piece) }
        ensures err { OnErr result (self.new ≡ self.old) }
    {
        let held = self.as_slice().len();
        if held == 0 {
            return Ok(NextLine::Ended);
        }
        match self.take(held, limit)? {
            NextLine::Whole(line) => Ok(NextLine::Last(line)),
            piece => Ok(piece),
        }
    }

    /// Reads once more, and answers how many bytes came.
    fn fill<S: Source>(&mut self, source: &mut S) -> Result<usize, IoFault>
        ensures content { Keeps (prepend_known self.old (S.told source.old)) (prepend_known self.new (S.told source.new)) }
        ensures reads { Fills self.old self.new (S.told source.old) (S.told source.new) (S.came source.new) }
        ensures front { IfOk result (λ came. take (length self.old) self.new ≡ self.old) }
        ensures grows { IfOk result (λ came. length self.new ≡ length self.old + came) }
        ensures within { IfOk result (λ came. came ≤ READ_LEN) }
        ensures end { IfOk result (λ came. came ≡ 0 → (self.new ≡ self.old) × IsAtEnd (S.told source.new)) }
        ensures err { OnErr result (self.new ≡ self.old) }
        ensures kept { Kept (S.faults source.old) (S.faults source.new) (S.sound source.old) (S.sound source.new)
            (result ≡ Err IoFault.Failed) }
    {
        self.compact();
        self.bytes.reserve(READ_LEN)?;
        let mut piece = [0; READ_LEN];
        let came = source.read(&mut piece)?;
        self.bytes.extend_from_slice(&piece[..came])?;
        Ok(came)
    }

    /// Gives up the room of the bytes that were taken.
    fn compact(&mut self)
        ensures { self.new ≡ self.old }
    {
        let held = self.bytes.len() - self.taken;
        self.bytes.rotate_left(self.taken);
        self.bytes.truncate(held);
        self.taken = 0;
    }
}

/// The place of the first line feed.
fn line_feed_in(bytes: &[u8]) -> Option<usize>
    ensures { result ≡ position is_line_feed bytes.now }
{
    bytes.iter().position(|byte| *byte == b'\n')
}
