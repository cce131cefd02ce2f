//! Why a request was not answered.

ghost use Rattle.std.specs.Prelude.{◌≡◌};
ghost use Rattle.replica.specs.declared.faults.ReplicaFault.TheVariants.{NoMemory};

use fab_base::NoMem;
use thiserror::Error;

/// Why a request was not answered.
#[derive(Clone, Copy, Debug, PartialEq, Eq, Error)]
pub enum ReplicaFault {
    /// The disk failed in this call. The store is halted.
    #[error("the disk failed")]
    Disk,
    /// An earlier call of this store answered [`ReplicaFault::Disk`].
    #[error("the store is halted")]
    Halted,
    /// Memory was refused, and nothing changed.
    #[error("out of memory")]
    NoMemory,
}

impl From<NoMem> for ReplicaFault {
    ghost from_gives = { λ _ e. e ≡ NoMemory };

    fn from(_: NoMem) -> Self {
        ReplicaFault::NoMemory
    }
}
