//! The refusal that no caller can rule out, and why a call of something outside did not do what was asked.

ghost use Rattle.fab_base.specs.declared.faults.NoMem.TheVariants.{NoMemory};

use std::alloc::{AllocError, AllocFailed};
use std::error::Error;
use std::fmt;

/// Memory ran out. It may come in place of any answer of a call that takes memory, and leaves things as they were.
#[derive(Clone, Copy, Debug, PartialEq, Eq)]
pub enum NoMem {
    /// No memory was left.
    NoMemory,
}

impl fmt::Display for NoMem {
    fn fmt<W: fmt::Write>(&self, f: &mut fmt::Formatter<W>) -> fmt::Result {
        write!(f, "no memory")
    }
}

impl Error for NoMem {}

impl From<AllocError> for NoMem {
    ghost from_gives = { λ _ e. e ≡ NoMemory };

    ghost use Rattle.std.specs.Prelude.{◌≡◌};
    ghost use Rattle.fab_base.specs.declared.faults.NoMem.TheVariants.{NoMemory};

    fn from(_error: AllocError) -> NoMem {
        NoMem::NoMemory
    }
}

impl<T: Drop> From<AllocFailed<T>> for NoMem {
    ghost from_gives = { λ _ e. e ≡ NoMemory };

    ghost use Rattle.std.specs.Prelude.{◌≡◌};
    ghost use Rattle.fab_base.specs.declared.faults.NoMem.TheVariants.{NoMemory};

    fn from(_error: AllocFailed<T>) -> NoMem {
        NoMem::NoMemory
    }
}

/// Why a call of something outside the program was refused: of a disk, a source, a sink, a link, a clock or a host.
#[derive(Clone, Copy, Debug, PartialEq, Eq)]
pub enum IoFault {
    /// The outside failed. The count of faults of what was called rose in that call.
    Failed,
    /// There was no memory. The call changed nothing.
    NoMemory,
}

impl fmt::Display for IoFault {
    ghost use Rattle.std.specs.Prelude.{Some};
    ghost use Rattle.fab_base.specs.Faults.{io_fault_text};

    ghost output = { λ fault. Some (io_fault_text fault) };

    fn fmt<W: fmt::Write>(&self, f: &mut fmt::Formatter<W>) -> fmt::Result {
        match self {
            IoFault::Failed => write!(f, "input or output failed"),
            IoFault::NoMemory => write!(f, "out of memory"),
        }
    }
}

impl Error for IoFault {}

impl From<AllocError> for IoFault {
    ghost use Rattle.std.specs.Prelude.{◌≡◌};
    ghost use Rattle.fab_base.specs.declared.faults.IoFault.TheVariants as io;

    ghost from_gives = { λ _ fault. fault ≡ io.NoMemory };

    fn from(_refused: AllocError) -> IoFault {
        IoFault::NoMemory
    }
}

impl<T: Drop> From<AllocFailed<T>> for IoFault {
    ghost use Rattle.std.specs.Prelude.{◌≡◌};
    ghost use Rattle.fab_base.specs.declared.faults.IoFault.TheVariants as io;

    ghost from_gives = { λ _ fault. fault ≡ io.NoMemory };

    fn from(_refused: AllocFailed<T>) -> IoFault {
        IoFault::NoMemory
    }
}
