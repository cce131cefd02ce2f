//! Why a run of commands does not come to its end.

ghost use Rattle.std.specs.Prelude.{◌≡◌};
ghost use Rattle.hosting.specs.declared.faults.HostFault.TheVariants.{NoMemory};

use fab_base::NoMem;
use serving::ServeFault;
use std::alloc::AllocError;
use thiserror::Error;

/// Why a run of commands does not come to its end.
#[derive(Clone, Copy, Debug, PartialEq, Eq, Error)]
pub enum HostFault {
    /// The disk of a brick failed, in this turn or in an earlier one.
    #[error("a disk failed")]
    Disk,
    /// The link of a brick failed.
    #[error("the link of a brick failed")]
    Link,
    /// The link of the client failed.
    #[error("the link of the client failed")]
    ClientLink,
    /// The clock failed.
    #[error("the clock failed")]
    Clock,
    /// The source of commands failed.
    #[error("the source failed")]
    Source,
    /// The sink of answers failed.
    #[error("the sink failed")]
    Sink,
    /// No memory was left.
    #[error("no memory")]
    NoMemory,
}

impl From<NoMem> for HostFault {
    ghost from_gives = { λ _ fault. fault ≡ NoMemory };

    fn from(_error: NoMem) -> HostFault {
        HostFault::NoMemory
    }
}

impl From<AllocError> for HostFault {
    ghost from_gives = { λ _ fault. fault ≡ NoMemory };

    fn from(_error: AllocError) -> HostFault {
        HostFault::NoMemory
    }
}

impl From<ServeFault> for HostFault {
    ghost use Rattle.std.specs.Prelude.{◌≡◌};
    ghost use Rattle.hosting.specs.Faults.{fault_of};

    ghost from_gives = { λ met fault. fault ≡ fault_of met };

    fn from(met: ServeFault) -> HostFault {
        match met {
            ServeFault::Disk | ServeFault::Halted => HostFault::Disk,
            ServeFault::Link => HostFault::Link,
            ServeFault::Clock => HostFault::Clock,
            ServeFault::NoMemory => HostFault::NoMemory,
        }
    }
}
