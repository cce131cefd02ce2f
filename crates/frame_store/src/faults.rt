//! Why a call of a store was refused.

ghost use Rattle.std.specs.Prelude.{◌≡◌};
ghost use Rattle.frame_store.specs.declared.faults.FrameFault.TheVariants as frames;
ghost use Rattle.frame_store.specs.declared.faults.OpenFault.TheVariants as opens;

use fab_base::NoMem;
use std::alloc::{AllocError, AllocFailed};
use thiserror::Error;

/// Why a change or a reading of a store was refused.
#[derive(Clone, Copy, Debug, PartialEq, Eq, Error)]
pub enum FrameFault {
    /// The disk failed in this call. The store is halted.
    #[error("the disk failed")]
    Disk,
    /// An earlier call of this store answered [`FrameFault::Disk`].
    #[error("the store is halted")]
    Halted,
    /// Memory was refused, and nothing changed.
    #[error("out of memory")]
    NoMemory,
}

impl From<AllocError> for FrameFault {
    ghost from_gives = { λ _ e. e ≡ frames.NoMemory };

    fn from(_: AllocError) -> Self {
        FrameFault::NoMemory
    }
}

impl<T: Drop> From<AllocFailed<T>> for FrameFault {
    ghost from_gives = { λ _ e. e ≡ frames.NoMemory };

    fn from(_: AllocFailed<T>) -> Self {
        FrameFault::NoMemory
    }
}

impl From<NoMem> for FrameFault {
    ghost from_gives = { λ _ e. e ≡ frames.NoMemory };

    fn from(_: NoMem) -> Self {
        FrameFault::NoMemory
    }
}

/// Why a store was not opened.
#[derive(Clone, Copy, Debug, PartialEq, Eq, Error)]
pub enum OpenFault {
    /// The disk failed in this call.
    #[error("the disk failed")]
    Disk,
    /// Neither header of the disk is open.
    #[error("there is no store of this brick and layout")]
    NotAStore,
    /// Memory was refused, and nothing changed.
    #[error("out of memory")]
    NoMemory,
}

impl<T: Drop> From<AllocFailed<T>> for OpenFault {
    ghost from_gives = { λ _ e. e ≡ opens.NoMemory };

    fn from(_: AllocFailed<T>) -> Self {
        OpenFault::NoMemory
    }
}

impl From<AllocError> for OpenFault {
    ghost from_gives = { λ _ e. e ≡ opens.NoMemory };

    fn from(_: AllocError) -> Self {
        OpenFault::NoMemory
    }
}

impl From<NoMem> for OpenFault {
    ghost from_gives = { λ _ e. e ≡ opens.NoMemory };

    fn from(_: NoMem) -> Self {
        OpenFault::NoMemory
    }
}
