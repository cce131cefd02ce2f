//! Whether marks are well formed.

ghost use Rattle.std.specs.Prelude.{◌≡◌, ℕ, ◌<◌, ◌↔◌, ⊤, IsTrue, Some, MatchOption, take, map, slice_get};
ghost use Rattle.std.specs.List.Sorted.{IsStrictlyIncreasing};
ghost use Rattle.fab_base.specs.declared.answers.Answer.{Answer};
ghost use Rattle.reg_model.specs.declared.marks.Mark.TheVariants.{End};
ghost use Rattle.reg_model.specs.Marks.{position_of, begun_numbers, life_of, IsOpen, IsWellFormed};

use crate::lives::Life;
use crate::marks::Mark;

/// Whether positions rise, operations are numbered in the order of their Begins, and each End is of an operation that is open
/// just before it. No memory is taken.
pub fn is_well_formed(marks: &[Mark]) -> bool
    ensures { IsTrue result ↔ IsWellFormed marks.now }
{
    positions_rise(marks) && numbers_rise(marks) && ends_are_of_open(marks)
}

/// Whether each mark's position is above that of the mark before it.
fn positions_rise(marks: &[Mark]) -> bool
    ensures { IsTrue result ↔ IsStrictlyIncreasing (map position_of marks.now) }
{
    marks.is_sorted_by(|before, after| before.position() < after.position())
}

/// Whether each operation's number is above that of the operation that began before it.
fn numbers_rise(marks: &[Mark]) -> bool
    ensures { IsTrue result ↔ IsStrictlyIncreasing (begun_numbers marks.now) }
{
    let mut last = None;
    for mark in marks {
        if let Mark::Begin { operation, .. } = mark {
            if !is_above(*operation, last) {
                return false;
            }
            last = Some(*operation);
        }
    }
    true
}

/// Whether the number is above the last one, if there is one.
fn is_above(number: u64, last: Option<u64>) -> bool
    ensures { IsTrue result ↔ MatchOption last ⊤ (λ before. before < number) }
{
    last.is_none_or(|before| before < number)
}

/// Whether each End is of an operation that is open just before it.
fn ends_are_of_open(marks: &[Mark]) -> bool
    ensures { IsTrue result ↔ ((i p n : ℕ) (answer : Answer) → slice_get marks.now i ≡ Some (End p n answer)
        → IsOpen (life_of (take i marks.now) n)) }
{
    for (i, mark) in marks.iter().enumerate() {
        if let Mark::End { operation, .. } = mark {
            let (before, _) = marks.split_at(i);
            if !is_open(before, *operation) {
                return false;
            }
        }
    }
    true
}

/// Whether an operation has begun and is open after these marks.
fn is_open(marks: &[Mark], operation: u64) -> bool
    ensures { IsTrue result ↔ IsOpen (life_of marks.now operation) }
{
    match Life::find(marks, operation) {
        Some(life) => life.ending.is_unended(),
        None => false,
    }
}
