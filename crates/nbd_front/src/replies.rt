//! What the server sends.
#![tactic(auto, unfolding(crate::specs::Wire::greeting, crate::specs::Wire::option_reply, crate::specs::Wire::export_reply, crate::specs::Wire::request_reply))]

ghost use Rattle.std.specs.Prelude.{◌≡◌, IfOk};
ghost use Rattle.nbd_front.specs.Wire.{greeting, option_reply, export_reply, request_reply, error_number};

use crate::steps::ReplyError;
use fab_base::{Bytes, NoMem};
use std::alloc::Global;

// The kind of a reply to an option that was taken.
pub(crate) const ACKNOWLEDGED: u32 = 1;
// The kind of a reply to an option that is not served.
pub(crate) const UNSUPPORTED: u32 = 0x8000_0001;

// The server's greeting.
pub(crate) fn greeting(alloc: Global) -> Result<Bytes, NoMem>
    ensures { IfOk result (λ sent. sent ≡ greeting) }
{
    let mut sent = Vec::new(alloc);
    sent.extend_from_slice(b"NBDMAGICIHAVEOPT")?;
    sent.extend_from_slice(&3_u16.to_be_bytes())?;
    Ok(Bytes::from_vec(sent))
}

// The reply to an option that is no volume's name.
pub(crate) fn option_reply(alloc: Global, option: u32, kind: u32) -> Result<Bytes, NoMem>
    ensures { IfOk result (λ sent. sent ≡ option_reply option kind) }
{
    let mut sent = Vec::new(alloc);
    sent.extend_from_slice(&0x0003_e889_0455_65a9_u64.to_be_bytes())?;
    sent.extend_from_slice(&option.to_be_bytes())?;
    sent.extend_from_slice(&kind.to_be_bytes())?;
    sent.extend_from_slice(&0_u32.to_be_bytes())?;
    Ok(Bytes::from_vec(sent))
}

// The reply to the name of a volume of this size.
pub(crate) fn export_reply(alloc: Global, size: u64, brief: bool) -> Result<Bytes, NoMem>
    ensures { IfOk result (λ sent. sent ≡ export_reply size brief) }
{
    let mut sent = Vec::new(alloc);
    sent.extend_from_slice(&size.to_be_bytes())?;
    sent.extend_from_slice(&5_u16.to_be_bytes())?;
    if !brief {
        sent.extend_from_slice(&[0; 124])?;
    }
    Ok(Bytes::from_vec(sent))
}

impl ReplyError {
    // Its number.
    fn number(self) -> u32
        ensures { result ≡ error_number self }
    {
        match self {
            ReplyError::Success => 0,
            ReplyError::Io => 5,
            ReplyError::Invalid => 22,
            ReplyError::NoSpace => 28,
        }
    }
}

// The reply to a request, before the bytes of a READ.
pub(crate) fn request_reply(alloc: Global, error: ReplyError, cookie: u64) -> Result<Bytes, NoMem>
    ensures { IfOk result (λ sent. sent ≡ request_reply error cookie) }
{
    let mut sent = Vec::new(alloc);
    sent.extend_from_slice(&0x6744_6698_u32.to_be_bytes())?;
    sent.extend_from_slice(&error.number().to_be_bytes())?;
    sent.extend_from_slice(&cookie.to_be_bytes())?;
    Ok(Bytes::from_vec(sent))
}
