//! Whether happenings are strict for the marks.

ghost use Rattle.std.specs.Prelude.{◌≡◌, ℕ, ◌*◌, ◌↔◌, eqb, IsTrue, length, map, All, Contains};
ghost use Rattle.std.specs.List.{IsDistinct};
ghost use Rattle.std.specs.List.Sorted.{IsNonDecreasing};
ghost use Rattle.reg_model.specs.Marks.{life_of};
ghost use Rattle.reg_model.specs.Registers.{zero_registers};
ghost use Rattle.reg_model.specs.Strict.{IsInTime, IsStrict, MarkFits, ReadsRight, ReadsRightAlong, WasAnswered};
ghost use Rattle.reg_model.specs.Fits.{FitsRegisters};
ghost use Rattle.reg_model.specs.Lives.{life_shown};

use crate::lives::{Ending, Life};
use crate::marks::{Happening, Mark};
use crate::registers;
use fab_base::Answer;

/// Whether the happenings are strict for the marks of one stripe, of m data blocks of `block` bytes each.
///
/// What the marks ask fits the stripe, and `scratch` has room for its bytes: what it holds before does not matter. No memory
/// is taken.
pub fn is_strict(
    marks: &[Mark],
    happenings: &[Happening],
    m: u8,
    block: usize,
    scratch: &mut [u8],
) -> bool
    requires fits { All (MarkFits m block) marks.now }
    requires room { length scratch.old ≡ m * block }
    ensures { IsTrue result ↔ IsStrict m block marks.now happenings.now }
{
    never_back(happenings)
        && once(happenings)
        && in_time(marks, happenings)
        && answered_happen(marks, happenings)
        && reads_right(marks, happenings, m, block, scratch)
}

/// Whether no happening's position is below that of the one before it.
fn never_back(happenings: &[Happening]) -> bool
    ensures { IsTrue result ↔ IsNonDecreasing (map (λ h. h.position) happenings.now) }
{
    happenings.is_sorted_by(|before, after| before.position <= after.position)
}

/// Whether no operation stands twice.
fn once(happenings: &[Happening]) -> bool
    ensures { IsTrue result ↔ IsDistinct eqb (map (λ h. h.operation) happenings.now) }
{
    for (i, happening) in happenings.iter().enumerate() {
        let (before, _) = happenings.split_at(i);
        if has_happened(before, happening.operation) {
            return false;
        }
    }
    true
}

/// Whether the operation stands among the happenings.
fn has_happened(happenings: &[Happening], operation: u64) -> bool
    ensures { IsTrue result ↔ Contains (map (λ h. h.operation) happenings.now) operation }
{
    happenings
        .iter()
        .any(|happening| happening.operation == operation)
}

/// Whether each operation has begun and happens between its begin and its end.
fn in_time(marks: &[Mark], happenings: &[Happening]) -> bool
    ensures { IsTrue result ↔ All (λ h. IsInTime (life_of marks.now h.operation) h.position) happenings.now }
{
    for happening in happenings {
        if !is_in_time(marks, *happening) {
            return false;
        }
    }
    true
}

/// Whether the operation has begun and happens between its begin and its end.
fn is_in_time(marks: &[Mark], happening: Happening) -> bool
    ensures { IsTrue result ↔ IsInTime (life_of marks.now happening.operation) happening.position }
{
    match Life::find(marks, happening.operation) {
        Some(life) => life.begin <= happening.position && life.ending.reaches(happening.position),
        None => false,
    }
}

/// Whether every answered operation stands among the happenings.
fn answered_happen(marks: &[Mark], happenings: &[Happening]) -> bool
    ensures { IsTrue result ↔ ((n : ℕ) → WasAnswered (life_of marks.now n)
        → Contains (map (λ h. h.operation) happenings.now) n) }
{
    for mark in marks {
        if let Mark::Begin { operation, .. } = mark {
            if !happens_if_answered(marks, happenings, *operation) {
                return false;
            }
        }
    }
    true
}

/// Whether the operation stands among the happenings, if it was answered.
fn happens_if_answered(marks: &[Mark], happenings: &[Happening], operation: u64) -> bool
    ensures { IsTrue result ↔ (WasAnswered (life_of marks.now operation)
        → Contains (map (λ h. h.operation) happenings.now) operation) }
{
    !was_answered(marks, operation) || has_happened(happenings, operation)
}

/// Whether the operation was answered by data or as done.
fn was_answered(marks: &[Mark], operation: u64) -> bool
    ensures { IsTrue result ↔ WasAnswered (life_of marks.now operation) }
{
    match Life::find(marks, operation) {
        Some(life) => life.ending.is_answered(),
        None => false,
    }
}

/// Whether along the happenings, from zero, each answered read gives what the registers then hold.
fn reads_right(
    marks: &[Mark],
    happenings: &[Happening],
    m: u8,
    block: usize,
    scratch: &mut [u8],
) -> bool
    requires fits { All (MarkFits m block) marks.now }
    requires room { length scratch.old ≡ m * block }
    ensures { IsTrue result ↔ ReadsRightAlong block marks.now happenings.now (zero_registers m block) }
{
    scratch.fill(0);
    for happening in happenings {
        let Some(life) = Life::find(marks, happening.operation) else {
            return false;
        };
        if !is_read_right(&life, block, scratch) {
            return false;
        }
        registers::apply(&life.ask.op, block, scratch);
    }
    true
}

/// Whether the operation is no answered read, or was answered what the registers hold.
fn is_read_right(life: &Life, block: usize, registers: &[u8]) -> bool
    requires { FitsRegisters block registers.now life.now.ask.now.op }
    ensures { IsTrue result ↔ ReadsRight block registers.now (Some (life_shown life.now)) }
{
    match life.ending {
        Ending::Answered {
            answer: Answer::Data(bytes),
            ..
        } => registers::reads(&life.ask.op, block, registers, bytes.as_slice()),
        _ => true,
    }
}
