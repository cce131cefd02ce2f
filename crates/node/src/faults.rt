//! Why a brick does not do a step.

ghost use Rattle.std.specs.Prelude.{◌≡◌};
ghost use Rattle.node.specs.declared.faults.NodeFault.TheVariants.{NoMemory};

use fab_base::{NoMem, Refusal};
use replica::ReplicaFault;
use std::alloc::{AllocError, AllocFailed};

/// Why a brick does not do a step. What the machine sees of the brick has not changed then.
#[derive(Clone, Copy, Debug, PartialEq, Eq)]
pub enum NodeFault {
    /// An earlier call of this brick answered [`NodeFault::Disk`].
    Halted,
    /// The brick refuses the operation.
    Refused(Refusal),
    /// The disk failed in this call. The brick is halted.
    Disk,
    /// No memory was left. Nothing has changed.
    NoMemory,
}

impl From<NoMem> for NodeFault {
    ghost from_gives = { λ _ e. e ≡ NoMemory };

    fn from(_error: NoMem) -> NodeFault {
        NodeFault::NoMemory
    }
}

impl From<AllocError> for NodeFault {
    ghost from_gives = { λ _ e. e ≡ NoMemory };

    fn from(_error: AllocError) -> NodeFault {
        NodeFault::NoMemory
    }
}

impl<T: Drop> From<AllocFailed<T>> for NodeFault {
    ghost from_gives = { λ _ e. e ≡ NoMemory };

    fn from(_error: AllocFailed<T>) -> NodeFault {
        NodeFault::NoMemory
    }
}

impl From<ReplicaFault> for NodeFault {
    ghost use Rattle.node.specs.Faults.{fault_of};

    ghost from_gives = { λ fault e. e ≡ fault_of fault };

    fn from(fault: ReplicaFault) -> NodeFault {
        match fault {
            ReplicaFault::Disk => NodeFault::Disk,
            ReplicaFault::Halted => NodeFault::Halted,
            ReplicaFault::NoMemory => NodeFault::NoMemory,
        }
    }
}
