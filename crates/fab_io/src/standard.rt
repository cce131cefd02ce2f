// ReaderAdapters over the readers and writers of std, as standard input and output.
ghost use Rattle.std.specs.Prelude.{◌≡◌, ◌<◌, ◌≤◌, length, take, IfOk};
ghost use Rattle.std.specs.Io.{ReadsAtMost, StopsAt};
ghost use Rattle.std.specs.Io.KnownBytes.{ReadConsumes};
ghost use Rattle.fab_io.specs.Ends.{WriteTakes};

use crate::ends::{Sink, Source};
use crate::fault::raise;
use fab_base::IoFault;
use memchr::memchr;
use std::io;
use std::io::{BufRead, ErrorKind, Read, Write};
use std::marker::Model;

/// A source over a reader of std, as `StdSource::new(rt.reader())` over the runtime's standard input.
///
/// It tells what its reader tells, and standard input tells nothing. Each error of the reader but an interruption is a
/// fault. Nothing is promised of the outside, so it is never sound.
pub struct StdSource<R: Read> {
    input: R,
    came: usize,
    faults: u64,
}

impl<R: Read + Drop> Drop for StdSource<R> {
    // Written out, it is proved once: a derived one is proved anew, with that of each part, in each crate above that lets one go.
    fn drop(self) {
        let Self {
            input: _,
            came: _,
            faults: _,
        } = self;
    }
}

impl<R: Read> Model for StdSource<R> {
    ghost use Rattle.fab_io.specs.Standard.{ReaderAdapter};

    ghost Value = { ReaderAdapter };

    ghost view = { λ s. record { told = R.remaining s.input; came = s.came; faults = s.faults } };
}

impl<R: Read> StdSource<R> {
    /// A source that gives what the reader gives from here on.
    pub fn new(input: R) -> StdSource<R>
        ensures { result ≡ record { told = R.remaining input; came = 0; faults = 0 } }
    {
        StdSource {
            input,
            came: 0,
            faults: 0,
        }
    }
}

impl<R: Read> Source for StdSource<R> {
    ghost faults = { λ s. s.faults };

    ghost told = { λ s. s.told };

    ghost came = { λ s. s.came };

    ghost sound = { λ _. ⊥ };

    fn read(&mut self, into: &mut [u8]) -> Result<usize, IoFault> {
        self.came = 0;
        match read_once(&mut self.input, into) {
            Ok(count) => {
                self.came = count;
                Ok(count)
            }
            Err(_) => Err(raise(&mut self.faults)),
        }
    }
}

/// One read, asked again where a signal interrupted it.
fn read_once<R: Read>(input: &mut R, into: &mut [u8]) -> io::Result<usize>
    ensures within { ReadsAtMost result into.new }
    ensures content { ReadConsumes (R.remaining input.old) (R.remaining input.new) result into.new }
{
    for _ in 0..u64::MAX {
        match input.read(into) {
            Ok(count) => return Ok(count),
            Err(error) => {
                if error.kind() != ErrorKind::Interrupted {
                    return Err(error);
                }
            }
        }
    }
    Err(io::Error::from(ErrorKind::Interrupted))
}

/// A source over a reader of std that holds bytes ahead, as a `BufReader` over the runtime's standard input. It is as a
/// [`StdSource`] over that reader, and reads through a byte at once.
pub struct BufferedSource<R: BufRead> {
    source: StdSource<R>,
}

impl<R: BufRead + Drop> Drop for BufferedSource<R> {
    // Written out, it is proved once: a derived one is proved anew, with that of each part, in each crate above that lets one go.
    fn drop(self) {
        let Self { source: _ } = self;
    }
}

impl<R: BufRead> Model for BufferedSource<R> {
    ghost use Rattle.fab_io.specs.Standard.{ReaderAdapter};

    ghost Value = { ReaderAdapter };

    ghost view = { λ s. s.source };
}

impl<R: BufRead> BufferedSource<R> {
    /// A source that gives what the reader gives from here on.
    pub fn new(input: R) -> BufferedSource<R>
        ensures { result ≡ record { told = R.remaining input; came = 0; faults = 0 } }
    {
        BufferedSource {
            source: StdSource::new(input),
        }
    }
}

impl<R: BufRead> Source for BufferedSource<R> {
    ghost faults = { λ s. s.faults };

    ghost told = { λ s. s.told };

    ghost came = { λ s. s.came };

    ghost sound = { λ _. ⊥ };

    fn read(&mut self, into: &mut [u8]) -> Result<usize, IoFault> {
        self.source.read(into)
    }

    fn read_through(&mut self, last: u8, into: &mut [u8]) -> Result<usize, IoFault> {
        let source = &mut self.source;
        source.came = 0;
        match read_through_once(&mut source.input, last, into) {
            Ok(count) => {
                source.came = count;
                Ok(count)
            }
            Err(_) => Err(raise(&mut source.faults)),
        }
    }
}

/// One read through a byte, asked again where a signal interrupted it.
fn read_through_once<R: BufRead>(input: &mut R, last: u8, into: &mut [u8]) -> io::Result<usize>
    ensures within { ReadsAtMost result into.new }
    ensures content { ReadConsumes (R.remaining input.old) (R.remaining input.new) result into.new }
    ensures stops { IfOk result (λ n. StopsAt (take n into.new) last) }
{
    for _ in 0..u64::MAX {
        match read_held(input, last, into) {
            Ok(count) => return Ok(count),
            Err(error) => {
                if error.kind() != ErrorKind::Interrupted {
                    return Err(error);
                }
            }
        }
    }
    Err(io::Error::from(ErrorKind::Interrupted))
}

/// One look at what the reader holds. Where it holds nothing more, a read of one byte tells whether that is the end.
fn read_held<R: BufRead>(input: &mut R, last: u8, into: &mut [u8]) -> io::Result<usize>
    ensures long { length into.new ≡ length into.old }
    ensures within { ReadsAtMost result into.new }
    ensures content { ReadConsumes (R.remaining input.old) (R.remaining input.new) result into.new }
    ensures stops { IfOk result (λ n. StopsAt (take n into.new) last) }
{
    let held = match input.fill_buf() {
        Ok(held) => held,
        Err(error) => return Err(error),
    };
    if held.is_empty() {
        let (front, _) = into.split_at_mut(into.len().min(1));
        return input.read(front);
    }
    let count = count_through(last, held, into.len());
    into[..count].copy_from_slice(&held[..count]);
    input.consume(count);
    Ok(count)
}

/// How many of the first bytes, at most so many, stand before the first that is the given one, that one with them.
fn count_through(last: u8, bytes: &[u8], most: usize) -> usize
    ensures most { result ≤ most }
    ensures within { result ≤ length bytes.now }
    ensures some { 0 < length bytes.now → 0 < most → 0 < result }
    ensures stops { StopsAt (take result bytes.now) last }
{
    let front = &bytes[..most.min(bytes.len())];
    match memchr(last, front) {
        Some(at) => at + 1,
        None => front.len(),
    }
}

/// A sink over a writer of std, as `StdSink::new(io::writer(&rt))` over the runtime's standard output.
///
/// It tells what its writer tells, and standard output tells nothing. Each write is flushed before it is answered, so
/// that nothing taken is lost when the process ends. Each error but an interruption is a fault, and so is a writer that
/// takes nothing more. Nothing is promised of the outside, so it is never sound.
pub struct StdSink<W: Write> {
    output: W,
    faults: u64,
}

impl<W: Write + Drop> Drop for StdSink<W> {
    // Written out, it is proved once: a derived one is proved anew, with that of each part, in each crate above that lets one go.
    fn drop(self) {
        let Self {
            output: _,
            faults: _,
        } = self;
    }
}

impl<W: Write> Model for StdSink<W> {
    ghost use Rattle.fab_io.specs.Standard.{WriterAdapter};

    ghost Value = { WriterAdapter };

    ghost view = { λ s. record { told = W.contents s.output; faults = s.faults } };
}

impl<W: Write> StdSink<W> {
    /// A sink whose bytes the writer takes from here on.
    pub fn new(output: W) -> StdSink<W>
        ensures { result ≡ record { told = W.contents output; faults = 0 } }
    {
        StdSink { output, faults: 0 }
    }
}

impl<W: Write> Sink for StdSink<W> {
    ghost faults = { λ s. s.faults };

    ghost told = { λ s. s.told };

    ghost sound = { λ _. ⊥ };

    fn write(&mut self, from: &[u8]) -> Result<(), IoFault> {
        match write_out(&mut self.output, from) {
            Ok(()) => Ok(()),
            Err(_) => Err(raise(&mut self.faults)),
        }
    }
}

/// Writes all the bytes and flushes them. A write that a signal interrupted is asked again.
fn write_out<W: Write>(output: &mut W, from: &[u8]) -> io::Result<()>
    ensures { WriteTakes (W.contents output.old) (W.contents output.new) result from.now }
{
    let mut rest = from;
    for _ in 0..u64::MAX {
        if rest.is_empty() {
            return output.flush();
        }
        match output.write(rest) {
            Ok(0) => return Err(io::Error::from(ErrorKind::WriteZero)),
            Ok(count) => rest = &rest[count..],
            Err(error) => {
                if error.kind() != ErrorKind::Interrupted {
                    return Err(error);
                }
            }
        }
    }
    Err(io::Error::from(ErrorKind::Interrupted))
}
