//! The check of happenings against marks.

ghost use Rattle.std.specs.Prelude.{◌≡◌, ◌*◌, ◌↔◌, IsTrue, length, All};
ghost use Rattle.reg_model.specs.Marks.{IsWellFormed};
ghost use Rattle.reg_model.specs.Strict.{IsStrict, MarkFits};

use crate::marks::{Happening, Mark};
use crate::strictness::is_strict;
use crate::well_formed::is_well_formed;

/// Whether what the marks ask fits a stripe of m data blocks of `block` bytes each, as [`check`] requires.
pub fn all_fit(marks: &[Mark], m: u8, block: usize) -> bool
    ensures { IsTrue result ↔ All (MarkFits m block) marks.now }
{
    marks.iter().all(|mark| mark.fits(m, block))
}

/// Whether the marks are well formed and the happenings are strict for them (Aguilera and Frølund 2003): true exactly there.
///
/// The marks are those of one stripe of m data blocks, each of `block` bytes, and what they ask fits it. `scratch` has room
/// for the stripe; what it holds before does not matter, and what it holds afterwards says nothing. No memory is taken. The
/// time is at most in proportion to the square of the number of marks and happenings, and a stripe's bytes for each happening.
///
/// `block` is a `usize`, since it is compared with lengths. No program calls this: the crate `audit` decides the same faster.
pub fn check(
    marks: &[Mark],
    happenings: &[Happening],
    m: u8,
    block: usize,
    scratch: &mut [u8],
) -> bool
    requires fits { All (MarkFits m block) marks.now }
    requires room { length scratch.old ≡ m * block }
    ensures { IsTrue result ↔ (IsWellFormed marks.now × IsStrict m block marks.now happenings.now) }
{
    is_well_formed(marks) && is_strict(marks, happenings, m, block, scratch)
}
