// A clock, as a program above sees it.
ghost use Rattle.std.specs.Prelude.{◌≡◌, Option, ℕ};
ghost use Rattle.fab_io.specs.Ends.{Kept};
ghost use Rattle.fab_io.specs.Moments.{NowGives};

use fab_base::IoFault;

/// What gives moments.
///
/// A clock has a count of faults, which never falls and stays at `u64::MAX` once it is there. It may tell the moments that it is
/// going to give, by their number from 0, and they may be any numbers, falling ones too. A clock that is sound does not
/// fail and stays sound.
pub trait Clock {
    // The faults so far.
    ghost faults: { Self → ℕ };

    // The moments to come, where the clock tells them.
    ghost coming: { Self → Option (ℕ → ℕ) };

    // No call fails from here on.
    ghost sound: { Self → Type 0 };

    /// The moment that it is now, in milliseconds since a start of the clock's own.
    ///
    /// `Failed` comes only where the count of faults rose in this call. Either fault leaves the moments to come as they were.
    fn now(&mut self) -> Result<u64, IoFault>
        ensures gives { NowGives (coming self.old) (coming self.new) result }
        ensures kept { Kept (faults self.old) (faults self.new) (sound self.old) (sound self.new)
            (result ≡ Err IoFault.Failed) };
}
