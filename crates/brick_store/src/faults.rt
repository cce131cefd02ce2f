//! Why a call of a store was refused.

ghost use Rattle.std.specs.Prelude.{◌≡◌};
ghost use Rattle.brick_store.specs.declared.faults.StoreFault.TheVariants as changes;
ghost use Rattle.brick_store.specs.declared.faults.OpenFault.TheVariants as opens;

use fab_base::NoMem;
use frame_store::FrameFault;
use std::alloc::{AllocError, AllocFailed};
use thiserror::Error;

/// Why a change of a store was refused.
#[derive(Clone, Copy, Debug, PartialEq, Eq, Error)]
pub enum StoreFault {
    /// The disk failed in this call. The store is halted.
    #[error("the disk failed")]
    Disk,
    /// The change adds a record, and there are as many live records as there may be.
    #[error("{live} live records, and no room for more")]
    Full {
        /// How many there are.
        live: u32,
    },
    /// An earlier call of this store answered [`StoreFault::Disk`].
    #[error("the store is halted")]
    Halted,
    /// Memory was refused, and nothing changed.
    #[error("out of memory")]
    NoMemory,
}

impl From<FrameFault> for StoreFault {
    ghost use Rattle.brick_store.specs.Bricks.{fault_of};

    ghost from_gives = { λ fault e. e ≡ fault_of fault };

    fn from(fault: FrameFault) -> Self {
        match fault {
            FrameFault::Disk => StoreFault::Disk,
            FrameFault::Halted => StoreFault::Halted,
            FrameFault::NoMemory => StoreFault::NoMemory,
        }
    }
}

impl From<AllocError> for StoreFault {
    ghost from_gives = { λ _ e. e ≡ changes.NoMemory };

    fn from(_: AllocError) -> Self {
        StoreFault::NoMemory
    }
}

impl<T: Drop> From<AllocFailed<T>> for StoreFault {
    ghost from_gives = { λ _ e. e ≡ changes.NoMemory };

    fn from(_: AllocFailed<T>) -> Self {
        StoreFault::NoMemory
    }
}

impl From<NoMem> for StoreFault {
    ghost from_gives = { λ _ e. e ≡ changes.NoMemory };

    fn from(_: NoMem) -> Self {
        StoreFault::NoMemory
    }
}

/// Why a store was not opened.
#[derive(Clone, Copy, Debug, PartialEq, Eq, Error)]
pub enum OpenFault {
    /// The disk failed in this call.
    #[error("the disk failed")]
    Disk,
    /// Neither header of the disk is open.
    #[error("there is no store of this brick and layout")]
    NotAStore,
    /// The store was opened 2^32 - 1 times.
    #[error("the store was opened too often")]
    Worn,
    /// Memory was refused, and nothing changed.
    #[error("out of memory")]
    NoMemory,
}

impl From<frame_store::OpenFault> for OpenFault {
    ghost use Rattle.brick_store.specs.Bricks.{open_fault_of};

    ghost from_gives = { λ fault e. e ≡ open_fault_of fault };

    fn from(fault: frame_store::OpenFault) -> Self {
        match fault {
            frame_store::OpenFault::Disk => OpenFault::Disk,
            frame_store::OpenFault::NotAStore => OpenFault::NotAStore,
            frame_store::OpenFault::NoMemory => OpenFault::NoMemory,
        }
    }
}

impl From<FrameFault> for OpenFault {
    ghost use Rattle.brick_store.specs.Bricks.{read_fault_of};

    ghost from_gives = { λ fault e. e ≡ read_fault_of fault };

    // A store is halted where its disk failed.
    fn from(fault: FrameFault) -> Self {
        match fault {
            FrameFault::Disk => OpenFault::Disk,
            FrameFault::Halted => OpenFault::Disk,
            FrameFault::NoMemory => OpenFault::NoMemory,
        }
    }
}

impl From<AllocError> for OpenFault {
    ghost from_gives = { λ _ e. e ≡ opens.NoMemory };

    fn from(_: AllocError) -> Self {
        OpenFault::NoMemory
    }
}

impl<T: Drop> From<AllocFailed<T>> for OpenFault {
    ghost from_gives = { λ _ e. e ≡ opens.NoMemory };

    fn from(_: AllocFailed<T>) -> Self {
        OpenFault::NoMemory
    }
}

impl From<NoMem> for OpenFault {
    ghost from_gives = { λ _ e. e ≡ opens.NoMemory };

    fn from(_: NoMem) -> Self {
        OpenFault::NoMemory
    }
}
