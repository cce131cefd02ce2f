//! Fields: values that are spelled by bytes in one way, and read from the front of bytes.

ghost use Rattle.std.specs.Prelude.{◌≡◌, ◌++◌, OnOk};
ghost use Rattle.fields.specs.Parts.{spelled, AllFit};
ghost use Rattle.fields.specs.Reading.{Gives};
ghost use Rattle.fields.specs.Codecs.{Codec, pair};
ghost use Rattle.fields.specs.Kinds.{option};

use crate::readers::{Malformed, Reader};
use fab_base::NoMem;

/// A value with one spelling, whose room is fixed.
pub trait Field: Drop + Sized {
    /// How the value is spelled and read.
    ghost codec: { Codec Self };

    /// Adds the value's bytes. Asks that it keeps the limits that its type leaves open.
    fn put(&self, out: &mut Vec<u8>) -> Result<(), NoMem>
        requires { codec.Limits self.now }
        ensures bytes { OnOk result (out.new.items ≡ out.old.items ++ spelled (codec.parts self.now)) }
        ensures fits { OnOk result (AllFit (codec.parts self.now)) };

    /// The value that the bytes begin with. `Malformed` exactly where they begin with none, from the first part on that is cut
    /// short or has a value that is not allowed.
    fn take(from: &mut Reader<'_>) -> Result<Self, Malformed>
        ensures { Gives result from.new.rest.now (codec.read from.old.rest.now) };
}

impl<A: Field, B: Field> Field for (A, B) {
    ghost codec = { pair A.codec B.codec };

    #[tactic(auto, using(crate::proofs::Writings::joined))]
    fn put(&self, out: &mut Vec<u8>) -> Result<(), NoMem> {
        self.0.put(out)?;
        self.1.put(out)
    }

    fn take(from: &mut Reader<'_>) -> Result<(A, B), Malformed> {
        Ok((from.take()?, from.take()?))
    }
}

impl<A: Field> Field for Option<A> {
    ghost codec = { option A.codec };

    #[tactic(auto, using(crate::proofs::Writings::joined))]
    fn put(&self, out: &mut Vec<u8>) -> Result<(), NoMem> {
        match self {
            None => false.put(out),
            Some(value) => {
                true.put(out)?;
                value.put(out)
            }
        }
    }

    fn take(from: &mut Reader<'_>) -> Result<Option<A>, Malformed> {
        match from.take()? {
            false => Ok(None),
            true => Ok(Some(from.take()?)),
        }
    }
}
