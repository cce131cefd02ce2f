// The two ends of a stream of bytes, as a program above sees them.
ghost use Rattle.std.specs.Prelude.{◌≡◌, ℕ, List, Option, take, IfOk, IsErrOf, MatchResult};
ghost use Rattle.std.specs.Io.{ReadsAtMost, StopsAt};
ghost use Rattle.std.specs.Io.KnownBytes.{ReadConsumes, Keeps};
ghost use Rattle.fab_io.specs.Ends.{Kept, WriteTakes};

use fab_base::IoFault;

/// Where bytes come from.
///
/// A source has a count of faults, which never falls and stays at `u64::MAX` once it is there. It may tell the
/// bytes that it has left, and it tells how many its last read gave. A source that is sound does not fail and stays sound.
pub trait Source {
    // The faults so far.
    ghost faults: { Self → ℕ };

    // The bytes that are left, where the source tells them.
    ghost told: { Self → Option (List ℕ) };

    // How many bytes the last read gave; none where it failed, or before the first. A program that reads no further than it
    // needs is told by this number: what was read before the last read did not yet decide how it ends.
    ghost came: { Self → ℕ };

    // No call fails from here on.
    ghost sound: { Self → Type 0 };

    /// Reads into the front of the buffer, and answers how many bytes came: the next ones, in order, which are then
    /// gone from the source. What stands in the buffer behind them is not said. An answer of 0 to a buffer with
    /// room is the end, where a source that tells its bytes has none left.
    ///
    /// `Failed` comes only where the count of faults rose in this call. Either fault leaves the bytes that are left as
    /// they were.
    fn read(&mut self, into: &mut [u8]) -> Result<usize, IoFault>
        ensures within { ReadsAtMost result into.new }
        ensures content { ReadConsumes (told self.old) (told self.new) result into.new }
        ensures came { MatchResult result (λ n. came self.new ≡ n) (λ _. came self.new ≡ 0) }
        ensures kept { Kept (faults self.old) (faults self.new) (sound self.old) (sound self.new)
            (result ≡ Err IoFault.Failed) };

    /// Reads as [`read`](Source::read) does, but never past the first byte of this value: what stands behind it stays in
    /// the source. A source that can't look ahead gives a byte at a time.
    fn read_through(&mut self, last: u8, into: &mut [u8]) -> Result<usize, IoFault>
        ensures within { ReadsAtMost result into.new }
        ensures content { ReadConsumes (told self.old) (told self.new) result into.new }
        ensures came { MatchResult result (λ n. came self.new ≡ n) (λ _. came self.new ≡ 0) }
        ensures kept { Kept (faults self.old) (faults self.new) (sound self.old) (sound self.new)
            (result ≡ Err IoFault.Failed) }

        // No byte that came is the given one, but perhaps the last.
        ensures stops { IfOk result (λ n. StopsAt (take n into.new) last) }
    {
        let (front, _) = into.split_at_mut(into.len().min(1));
        self.read(front)
    }
}

/// Where bytes go.
///
/// A sink has a count of faults, which never falls and stays at `u64::MAX` once it is there. It may tell the bytes
/// that it took. A sink that is sound does not fail and stays sound.
pub trait Sink {
    // The faults so far.
    ghost faults: { Self → ℕ };

    // The bytes taken so far, where the sink tells them.
    ghost told: { Self → Option (List ℕ) };

    // No call fails from here on.
    ghost sound: { Self → Type 0 };

    /// Takes all the bytes, behind those that it took before. A sink that takes nothing more before the end of the
    /// piece has failed.
    ///
    /// `Failed` comes only where the count of faults rose in this call, and then some of the bytes were taken, from
    /// their front: none, a part or all. `NoMemory` leaves what was taken as it was.
    fn write(&mut self, from: &[u8]) -> Result<(), IoFault>
        ensures content { WriteTakes (told self.old) (told self.new) result from.now }
        ensures no_memory { IsErrOf result IoFault.NoMemory → Keeps (told self.old) (told self.new) }
        ensures kept { Kept (faults self.old) (faults self.new) (sound self.old) (sound self.new)
            (result ≡ Err IoFault.Failed) };
}
