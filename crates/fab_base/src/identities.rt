//! Names of bricks, groups, stripes, views and calls.

ghost use Rattle.std.specs.Prelude.{Some};
ghost use Rattle.std.specs.Fmt.{decimal};

use std::fmt;

/// The number of a brick, from 0. A layout has at most 64 of them; a greater number names a brick that is never up.
#[derive(Clone, Copy, Debug, PartialEq, Eq, PartialOrd, Ord)]
pub struct BrickId(pub u16);

/// The number of a group, from 0: stripes that are kept by the same members (Saito 2004, a seggroup).
#[derive(Clone, Copy, Debug, PartialEq, Eq, PartialOrd, Ord)]
pub struct GroupId(pub u32);

/// The number of a stripe within its group, from 0.
#[derive(Clone, Copy, Debug, PartialEq, Eq, PartialOrd, Ord)]
pub struct StripeNo(pub u32);

/// The number of a view, a list of members that keep a group, from 1 (Saito 2004, section 5).
#[derive(Clone, Copy, Debug, PartialEq, Eq, PartialOrd, Ord)]
pub struct ViewNo(pub u32);

/// A call of one brick: the count of openings of its store, and the call's number since then, both from 1.
#[derive(Clone, Copy, Debug, PartialEq, Eq, PartialOrd, Ord)]
pub struct CallId {
    /// How often the brick's store had been opened.
    pub boot: u32,
    /// The call's number since that opening.
    pub seq: u64,
}

impl fmt::Display for BrickId {
    ghost output = { λ brick. Some (decimal brick.0) };

    fn fmt<W: fmt::Write>(&self, f: &mut fmt::Formatter<W>) -> fmt::Result {
        let number = self.0;
        write!(f, "{number}")
    }
}
