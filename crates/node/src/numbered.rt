//! Values that are kept under numbers, whatever they are.

ghost use Rattle.std.specs.Prelude.{◌≡◌, true, false, OnOk, OnErr, is_some};
ghost use Rattle.std.specs.BTreeMap.{get, IsUnchanged};
ghost use Rattle.std.specs.Ordering.{nat_cmp};
ghost use Rattle.node.specs.States.{IsOpened, AreCallsAfter};

use crate::outs::Outs;
use fab_base::NoMem;
use std::collections::BTreeMap;

/// Keeps a value under a number that none is kept under. Where no memory is left, all is as it was.
pub(crate) fn keep_open<T: Drop>(
    values: &mut BTreeMap<u64, T>,
    seq: u64,
    value: T,
) -> Result<(), NoMem>
    requires free { is_some (get nat_cmp values.old seq) ≡ false }
    ensures opened { OnOk result (IsOpened seq value values.old values.new) }
    ensures err { OnErr result (IsUnchanged values.old values.new) }
{
    values.insert(seq, value)?;
    Ok(())
}

/// Forgets the value of this number where a step answers its operation.
pub(crate) fn close_answered<T: Drop>(values: &mut BTreeMap<u64, T>, seq: u64, outs: &Outs)
    requires held { is_some (get nat_cmp values.old seq) ≡ true }
    ensures calls { AreCallsAfter outs.now.answers seq values.old values.new }
{
    if outs.answer.is_some() {
        values.remove(&seq);
    }
}
