//! In what a row and the codec differ.

use fab_base::NoMem;
use hex::FromHexError;
use std::alloc::{AllocError, AllocFailed};
use std::fmt;

/// Why a row does not show what it should.
#[derive(Clone, Copy, PartialEq, Eq)]
pub enum Difference {
    /// The line is no row of hex digits.
    NoRow,
    /// Memory ran out.
    NoMemory,
    /// The message is spelled otherwise than it was.
    Spelling,
    /// The message is not read.
    Unread,
    /// Cut to this length, the datagram is malformed elsewhere.
    Cut(usize),
    /// With this value at this place, the datagram is malformed elsewhere, or nowhere.
    Changed {
        /// The place.
        place: usize,
        /// The value.
        value: u8,
    },
    /// A byte left over is not told.
    Longer,
}

impl fmt::Display for Difference {
    fn fmt<W: fmt::Write>(&self, f: &mut fmt::Formatter<W>) -> fmt::Result {
        match self {
            Difference::NoRow => write!(f, "no row"),
            Difference::NoMemory => write!(f, "no memory"),
            Difference::Spelling => write!(f, "another spelling"),
            Difference::Unread => write!(f, "not read"),
            Difference::Cut(length) => write!(f, "cut to {length}"),
            Difference::Changed { place, value } => write!(f, "{value} at {place}"),
            Difference::Longer => write!(f, "a byte left over"),
        }
    }
}

impl From<NoMem> for Difference {
    fn from(_error: NoMem) -> Difference {
        Difference::NoMemory
    }
}

impl From<AllocError> for Difference {
    fn from(_error: AllocError) -> Difference {
        Difference::NoMemory
    }
}

impl<T: Drop> From<AllocFailed<T>> for Difference {
    fn from(_error: AllocFailed<T>) -> Difference {
        Difference::NoMemory
    }
}

impl From<FromHexError> for Difference {
    fn from(error: FromHexError) -> Difference {
        match error {
            FromHexError::OutOfMemory => Difference::NoMemory,
            _ => Difference::NoRow,
        }
    }
}
