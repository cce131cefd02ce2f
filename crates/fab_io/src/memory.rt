// A source and a sink in memory.
ghost use Rattle.std.specs.Prelude.{◌≡◌, ◌≢◌, ◌↔◌, ◌≤◌, ◌<◌, length, IfOk, OnOk, OnErr, IsErrOf, MatchResult};
ghost use Rattle.std.specs.Io.{ReadsAtMost};
ghost use Rattle.std.specs.Io.KnownBytes.{ReadConsumes, Keeps};
ghost use Rattle.fab_io.specs.Ends.{Kept, WriteTakes};
ghost use Rattle.fab_io.specs.Calls.{FailsNext, NoneToFail};
ghost use Rattle.fab_io.specs.Memory.{source_of, given, after_read, after_failed_read, empty_sink, after_write, after_failed_write};

use crate::calls::Calls;
use crate::ends::{Sink, Source};
use fab_base::IoFault;
use std::alloc::Global;
use std::marker::Model;

/// A source of given bytes. It fails at the calls that [`fail_at`](MemSource::fail_at) lists and at no other, and is
/// sound once no listed call is still to come.
pub struct MemSource {
    bytes: Vec<u8>,
    at: usize,
    piece: usize,
    came: usize,
    calls: Calls,
}

impl Drop for MemSource {
    // Written out, it is proved once: a derived one is proved anew, with that of each part, in each crate above that lets one go.
    fn drop(self) {
        let Self {
            bytes: _,
            at: _,
            piece: _,
            came: _,
            calls: _,
        } = self;
    }
}

impl Model for MemSource {
    ghost use Rattle.std.specs.Prelude.{◌≤◌, ◌<◌, length, drop};
    ghost use Rattle.fab_io.specs.Memory.{SourceInMemory};

    ghost Value = { SourceInMemory };

    ghost view = { λ s. record { left = drop s.at s.bytes.items; piece = s.piece; came = s.came; calls = s.calls } };

    ghost invariant = { λ s. (s.at ≤ length s.bytes.items) × (0 < s.piece) };
}

impl MemSource {
    /// A source of these bytes.
    pub fn new(bytes: Vec<u8>) -> MemSource
        ensures { result ≡ source_of bytes.items }
    {
        let alloc: Global = *bytes.allocator();
        MemSource {
            bytes,
            at: 0,
            piece: usize::MAX,
            came: 0,
            calls: Calls::new(alloc),
        }
    }

    /// From now on a read gives at most this many bytes.
    pub fn in_pieces_of(&mut self, piece: usize)
        requires { 0 < piece }
        ensures { self.new ≡ record self.old { piece = piece } }
    {
        self.piece = piece;
    }

    /// The calls that are to fail, numbered from 1 over the source's life, in the place of those listed before.
    pub fn fail_at(&mut self, calls: Vec<u64>)
        ensures { self.new ≡ record self.old { calls = record self.old.calls { failing = calls.items } } }
    {
        self.calls.fail_at(calls);
    }
}

impl Source for MemSource {
    ghost use Rattle.std.specs.Prelude.{Some};
    ghost use Rattle.fab_io.specs.Calls.{NoneToFail};

    ghost faults = { λ s. s.calls.faults };

    ghost told = { λ s. Some s.left };

    ghost came = { λ s. s.came };

    ghost sound = { λ s. NoneToFail s.calls };

    fn read(&mut self, into: &mut [u8]) -> Result<usize, IoFault>
        ensures within { ReadsAtMost result into.new }
        ensures content { ReadConsumes (Some self.old.left) (Some self.new.left) result into.new }
        ensures came { MatchResult result (λ n. self.new.came ≡ n) (λ _. self.new.came ≡ 0) }
        ensures kept { Kept self.old.calls.faults self.new.calls.faults
            (NoneToFail self.old.calls) (NoneToFail self.new.calls) (result ≡ Err IoFault.Failed) }

        // A read fails exactly where it is listed.
        ensures fails { (result ≡ Err IoFault.Failed) ↔ FailsNext self.old.calls }
        ensures memory { result ≢ Err IoFault.NoMemory }

        // What it gives, and what the source is afterwards.
        ensures gives { IfOk result (λ n. n ≡ given self.old (length into.old)) }
        ensures ok { IfOk result (λ n. self.new ≡ after_read self.old n) }
        ensures err { OnErr result (self.new ≡ after_failed_read self.old) }
    {
        self.came = 0;
        self.calls.count()?;
        let left = &self.bytes[self.at..];
        let n = self.piece.min(into.len().min(left.len()));
        into[..n].copy_from_slice(&left[..n]);
        self.at += n;
        self.came = n;
        Ok(n)
    }
}

/// A sink that keeps what it took. It fails at the calls that [`fail_at`](MemSink::fail_at) lists and at no other,
/// and is sound once no listed call is still to come. A write that finds no memory is not counted as a call.
pub struct MemSink {
    taken: Vec<u8>,
    part: usize,
    calls: Calls,
}

impl Drop for MemSink {
    // Written out, it is proved once: a derived one is proved anew, with that of each part, in each crate above that lets one go.
    fn drop(self) {
        let Self {
            taken: _,
            part: _,
            calls: _,
        } = self;
    }
}

impl Model for MemSink {
    ghost use Rattle.fab_io.specs.Memory.{SinkInMemory};

    ghost Value = { SinkInMemory };

    ghost view = { λ s. record { taken = s.taken.items; part = s.part; calls = s.calls } };
}

impl MemSink {
    /// A sink that took nothing yet.
    pub fn new(alloc: Global) -> MemSink
        ensures { result ≡ empty_sink }
    {
        MemSink {
            taken: Vec::new(alloc),
            part: 0,
            calls: Calls::new(alloc),
        }
    }

    /// The bytes taken so far.
    pub fn taken(&self) -> &[u8]
        ensures { result.now ≡ self.now.taken }
    {
        &self.taken
    }

    /// From now on a write that fails takes this many bytes of its piece, or all of a shorter one.
    pub fn take_where_failing(&mut self, part: usize)
        ensures { self.new ≡ record self.old { part = part } }
    {
        self.part = part;
    }

    /// The calls that are to fail, numbered from 1 over the sink's life, in the place of those listed before.
    pub fn fail_at(&mut self, calls: Vec<u64>)
        ensures { self.new ≡ record self.old { calls = record self.old.calls { failing = calls.items } } }
    {
        self.calls.fail_at(calls);
    }
}

impl Sink for MemSink {
    ghost use Rattle.std.specs.Prelude.{Some};
    ghost use Rattle.fab_io.specs.Calls.{NoneToFail};

    ghost faults = { λ s. s.calls.faults };

    ghost told = { λ s. Some s.taken };

    ghost sound = { λ s. NoneToFail s.calls };

    fn write(&mut self, from: &[u8]) -> Result<(), IoFault>
        ensures content { WriteTakes (Some self.old.taken) (Some self.new.taken) result from.now }
        ensures no_memory { IsErrOf result IoFault.NoMemory → Keeps (Some self.old.taken) (Some self.new.taken) }
        ensures kept { Kept self.old.calls.faults self.new.calls.faults
            (NoneToFail self.old.calls) (NoneToFail self.new.calls) (result ≡ Err IoFault.Failed) }

        // A write fails only where it is listed, and where it is listed it does not succeed.
        ensures fails { IsErrOf result IoFault.Failed → FailsNext self.old.calls }
        ensures succeeds { OnOk result (¬ FailsNext self.old.calls) }

        // What the sink is afterwards.
        ensures ok { OnOk result (self.new ≡ after_write self.old from.now) }
        ensures failed { IsErrOf result IoFault.Failed → self.new ≡ after_failed_write self.old from.now }
        ensures refused { IsErrOf result IoFault.NoMemory → self.new ≡ self.old }
    {
        let part = if self.calls.fails_next() {
            self.part.min(from.len())
        } else {
            from.len()
        };
        self.taken.extend_from_slice(&from[..part])?;
        self.calls.count()
    }
}
