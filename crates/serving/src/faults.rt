//! Why a brick does not serve its turns to the end.

ghost use Rattle.std.specs.Prelude.{◌≡◌};
ghost use Rattle.serving.specs.declared.faults.ServeFault.TheVariants.{NoMemory};

use fab_base::NoMem;
use std::alloc::AllocError;
use thiserror::Error;

/// Why a brick does not serve its turns to the end.
#[derive(Clone, Copy, Debug, PartialEq, Eq, Error)]
pub enum ServeFault {
    /// The disk failed. The brick is halted.
    #[error("the disk failed")]
    Disk,
    /// The brick was halted when it was called: nothing was done.
    #[error("the brick is halted")]
    Halted,
    /// The link failed.
    #[error("the link failed")]
    Link,
    /// The clock failed.
    #[error("the clock failed")]
    Clock,
    /// No memory was left. The brick is as it was, unless it was as datagrams were sent.
    #[error("no memory")]
    NoMemory,
}

impl From<NoMem> for ServeFault {
    ghost from_gives = { λ _ fault. fault ≡ NoMemory };

    fn from(_error: NoMem) -> ServeFault {
        ServeFault::NoMemory
    }
}

impl From<AllocError> for ServeFault {
    ghost from_gives = { λ _ fault. fault ≡ NoMemory };

    fn from(_error: AllocError) -> ServeFault {
        ServeFault::NoMemory
    }
}
