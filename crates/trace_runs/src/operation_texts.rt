//! What operations do, what they were answered, and what they do to registers.

use crate::journals::Operation;
use crate::texts::Text;
use fab_base::{Answer, Cause, Op};
use reg_model::Mark;

/// Writes what an operation is asked to do.
pub fn put_op(text: &mut Text, op: &Op) {
    match op {
        Op::ReadBlock(block) => text.fill("read %", &[u64::from(*block)]),
        Op::WriteBlock(block, bytes) => {
            text.fill("write % ", &[u64::from(*block)]);
            text.put_hex(bytes.as_slice());
        }
        Op::ReadStripe => text.put("readall"),
        Op::WriteStripe(bytes) => {
            text.put("writeall ");
            text.put_hex(bytes.as_slice());
        }
    }
}

/// Writes an answer, in short.
pub fn put_answer(text: &mut Text, answer: &Answer) {
    match answer {
        Answer::Data(bytes) => text.put_hex(bytes.as_slice()),
        Answer::Done => text.put("done"),
        Answer::Aborted(Cause::Later { .. }) => text.put("aborted later"),
        Answer::Aborted(Cause::Gone { .. }) => text.put("aborted gone"),
        Answer::Aborted(Cause::Full { .. }) => text.put("aborted full"),
        Answer::Aborted(Cause::Moved { .. }) => text.put("aborted moved"),
    }
}

/// What an operation is asked to do, by all marks.
pub fn op_of<'a>(marks: &'a [Mark], operation: &Operation) -> Option<&'a Op> {
    match marks.get(operation.begin)? {
        Mark::Begin { ask, .. } => Some(&ask.op),
        Mark::End { .. } | Mark::Crash { .. } => None,
    }
}

/// The answer that an operation was given, by all marks. None where it is open, or was cut off.
pub fn answer_of<'a>(marks: &'a [Mark], operation: &Operation) -> Option<&'a Answer> {
    match marks.get(operation.end?)? {
        Mark::End { answer, .. } => Some(answer),
        Mark::Begin { .. } | Mark::Crash { .. } => None,
    }
}

/// Sets registers from this place on to these bytes, as many as there is room for.
fn set(registers: &mut Vec<u8>, from: usize, bytes: &[u8]) {
    for (place, byte) in bytes.iter().enumerate() {
        if let Some(register) = registers.get_mut(from.saturating_add(place)) {
            *register = *byte;
        }
    }
}

/// Changes a stripe's registers as an operation does. A block has so many bytes.
pub fn change(op: Option<&Op>, block: usize, registers: &mut Vec<u8>) {
    match op {
        Some(Op::WriteBlock(j, bytes)) => {
            let from = usize::from(*j).saturating_mul(block);
            set(registers, from, bytes.as_slice());
        }
        Some(Op::WriteStripe(bytes)) => set(registers, 0, bytes.as_slice()),
        _ => {}
    }
}
