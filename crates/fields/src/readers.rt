//! Bytes that fields are read from, one after the other, and why a field was not read.

ghost use Rattle.std.specs.Prelude.{◌≡◌, length};
ghost use Rattle.fields.specs.Reading.{Gives, Shows, raw_at};
ghost use Rattle.fields.specs.declared.readers.ReadFault.TheVariants as reads;

use crate::codecs::Field;
use fab_base::NoMem;

/// A part is cut short or has a value that is not allowed.
#[derive(Clone, Copy, Debug, PartialEq, Eq)]
pub struct Malformed {
    /// How many bytes are left from the first such part on.
    pub left: usize,
}

/// Why a value that takes memory was not read.
#[derive(Clone, Copy, Debug, PartialEq, Eq)]
pub enum ReadFault {
    /// A part is cut short or has a value that is not allowed. So many bytes are left from it on.
    Malformed(usize),
    /// Memory ran out.
    NoMemory,
}

impl From<Malformed> for ReadFault {
    ghost from_gives = { λ fault e. e ≡ reads.Malformed fault.left };

    fn from(fault: Malformed) -> ReadFault {
        ReadFault::Malformed(fault.left)
    }
}

impl From<NoMem> for ReadFault {
    ghost from_gives = { λ _ e. e ≡ reads.NoMemory };

    fn from(_error: NoMem) -> ReadFault {
        ReadFault::NoMemory
    }
}

/// Bytes that are read from their front on.
#[derive(Drop)]
pub struct Reader<'b> {
    /// The bytes that are still to be read.
    pub rest: &'b [u8],
}

/// Reads each named field of a value, in this order, and makes the value of them.
#[macro_export]
macro_rules! take_fields {
    ($from:expr; $($made:ident)::+ { $($field:ident),+ }) => { $($made)::+ { $($field: $from.take()?),+ } };
}

impl<'b> Reader<'b> {
    /// The field that the bytes begin with. `Malformed` exactly where they begin with none.
    pub fn take<T: Field>(&mut self) -> Result<T, Malformed>
        ensures { Gives result self.new.rest.now (T.codec.read self.old.rest.now) }
    {
        T::take(self)
    }

    /// The next bytes, so many. `Malformed` exactly where there are fewer.
    #[tactic(auto, unfolding(crate::specs::Reading::raw_at))]
    pub fn raw(&mut self, count: usize) -> Result<&'b [u8], Malformed>
        ensures { Shows (λ x. x.now) result self.new.rest.now (raw_at count self.old.rest.now) }
    {
        if self.rest.len() < count {
            return Err(Malformed {
                left: self.rest.len(),
            });
        }
        let (front, rest) = self.rest.split_at(count);
        self.rest = rest;
        Ok(front)
    }
}
