//! The operations of a range, one by one.

ghost use Rattle.std.specs.Prelude.{◌≡◌, ◌+◌, ◌*◌, ◌<◌, ◌≤◌, ◌^◌, length, option_copied, IfOk, IfSome};
ghost use Rattle.std.specs.Option.{ForSome};
ghost use Rattle.front.specs.Pieces.{piece_at, op_of, cut_of, ask_of};
ghost use Rattle.front.specs.Contents.{written_by};

use fab_base::{Ask, Bytes, NoMem, Op};
use layout::{Layout, Place};
use std::alloc::Global;

// What a range writes.
#[derive(Drop)]
pub(crate) enum Content<'l> {
    // Nothing: it is a read.
    Nothing,
    // Bytes that it keeps.
    Kept(Bytes),
    // Bytes that were lent to it.
    Lent(&'l [u8]),
}

impl<'l> Content<'l> {
    // The bytes that are written, if it is a write.
    pub(crate) fn bytes(&self) -> Option<&[u8]>
        ensures { option_copied result ≡ written_by self.now }
    {
        match self {
            Content::Nothing => None,
            Content::Kept(bytes) => Some(bytes.as_slice()),
            Content::Lent(bytes) => Some(bytes),
        }
    }
}

// What one operation of a range is on: one data block, or all data blocks of a stripe.
#[derive(Clone, Copy)]
pub(crate) struct StripePart {
    // Where the first byte of its first data block lies.
    pub(crate) place: Place,
    // Whether it is all of a stripe.
    pub(crate) whole: bool,
    // How many data blocks it has behind its first.
    pub(crate) behind: u64,
}

// The piece that begins at a data block of a volume, where the range has so many data blocks from there on. None where the volume
// has no such block.
pub(crate) fn piece_at(layout: &Layout, volume: &str, number: u64, more: u64) -> Option<StripePart>
    requires fits { number * layout.now.block < 2 ^ 64 }
    requires some { 1 ≤ more }
    ensures value { result ≡ piece_at layout.now volume.now number more }
    ensures few { IfSome result (λ piece. piece.behind < more) }
{
    let place = layout.place(volume, number * u64::from(layout.block()))?;
    let group = layout.group(place.group)?;
    let blocks = u64::from(group.policy().m());
    let whole = place.block == 0 && blocks <= more;
    let behind = if whole { blocks - 1 } else { 0 };
    Some(StripePart {
        place,
        whole,
        behind,
    })
}

impl StripePart {
    // The piece's bytes of those that are to be written, where so many data blocks of the range come before it.
    pub(crate) fn cut(self, content: &[u8], block: u16, done: u64) -> &[u8]
        requires some { 1 ≤ block }
        requires within { (done + self.behind + 1) * block ≤ length content.now }
        ensures { result.now ≡ cut_of block done self.behind content.now }
    {
        let block = usize::from(block);
        let (_, rest) = content.split_at(done as usize * block);
        let (cut, _) = rest.split_at((self.behind as usize + 1) * block);
        cut
    }

    // The operation on the piece: a write of these bytes, or a read.
    pub(crate) fn op(self, alloc: Global, bytes: Option<&[u8]>) -> Result<Op, NoMem>
        ensures { IfOk result (λ op. op ≡ op_of self (option_copied bytes.entry)) }
    {
        match bytes {
            None if self.whole => Ok(Op::ReadStripe),
            None => Ok(Op::ReadBlock(self.place.block)),
            Some(bytes) if self.whole => Ok(Op::WriteStripe(Bytes::from_slice(alloc, bytes)?)),
            Some(bytes) => Ok(Op::WriteBlock(self.place.block, Bytes::from_slice(alloc, bytes)?)),
        }
    }
    // The operation on the piece, where so many data blocks of the range come before it: a write of its bytes of these, or a read.
    pub(crate) fn ask(
        self,
        alloc: Global,
        content: Option<&[u8]>,
        block: u16,
        done: u64,
    ) -> Result<Ask, NoMem>
        requires some { 1 ≤ block }
        requires enough { ForSome (option_copied content) (λ bytes. (done + self.behind + 1) * block ≤ length bytes) }
        ensures { IfOk result (λ ask. ask ≡ ask_of block (option_copied content.entry) done self) }
    {
        let bytes = match content {
            Some(content) => Some(self.cut(content, block, done)),
            None => None,
        };
        Ok(Ask {
            group: self.place.group,
            stripe: self.place.stripe,
            op: self.op(alloc, bytes)?,
        })
    }
}
