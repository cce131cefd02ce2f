//! What comes of the answer to a command.

ghost use Rattle.std.specs.Prelude.{◌≡◌};
ghost use Rattle.nbd_front.specs.Sessions.{error_of, found_by};

use crate::parts::NbdKind;
use crate::steps::ReplyError;
use fab_base::Bytes;
use front::RangeAnswer;
use std::alloc::Global;

impl NbdKind {
    // The error of an answer to a command of this kind.
    pub(crate) fn error_of(self, answer: &RangeAnswer) -> ReplyError
        ensures { result ≡ error_of self answer.now }
    {
        match answer {
            RangeAnswer::Done(_) => ReplyError::Success,
            RangeAnswer::Stopped { .. } => ReplyError::Io,
            RangeAnswer::Unaligned => ReplyError::Invalid,
            RangeAnswer::Beyond => match self {
                NbdKind::Write => ReplyError::NoSpace,
                _ => ReplyError::Invalid,
            },
        }
    }

    // The bytes that are sent for an answer to a command of this kind.
    pub(crate) fn found_by(self, alloc: Global, answer: RangeAnswer) -> Bytes
        ensures { result ≡ found_by self answer }
    {
        match answer {
            RangeAnswer::Done(bytes) => match self {
                NbdKind::Read => bytes,
                _ => Bytes::empty(alloc),
            },
            RangeAnswer::Stopped { .. } | RangeAnswer::Unaligned | RangeAnswer::Beyond => {
                Bytes::empty(alloc)
            }
        }
    }
}
