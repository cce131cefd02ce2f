// The count of the faults of an end.
ghost use Rattle.std.specs.Prelude.{◌≡◌, ◌≤◌};
ghost use Rattle.fab_base.specs.Faults.{Rose};
ghost use Rattle.fab_io.specs.Ends.{one_more};

use fab_base::IoFault;

/// Counts one more fault and gives the answer for it. A count that stands at `u64::MAX` stays there.
pub fn raise(faults: &mut u64) -> IoFault
    ensures counted { faults.new ≡ one_more faults.old }
    ensures later { faults.old ≤ faults.new }
    ensures rose { Rose faults.old faults.new }
    ensures answer { result ≡ IoFault.Failed }
{
    *faults = faults.saturating_add(1);
    IoFault::Failed
}
