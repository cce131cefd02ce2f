//! Where the calls of a brick come from.

use fab_base::{BrickId, CallId, Stamp, ViewNo};
use stamp_store::StampSource;

/// Where the next call of a brick comes from: the brick, the number of its last call, where its stamps come from, and the time of its clock.
#[derive(Clone, Copy)]
pub struct CallSource {
    pub(crate) me: BrickId,
    pub(crate) seq: u64,
    pub(crate) stamps: StampSource,
    pub(crate) now: u64,
}

impl CallSource {
    ghost use Rattle.std.specs.Prelude.{◌≡◌, ◌+◌, ◌-◌, ◌^◌, nat_eq, not, ◌||◌, if◌then◌else◌, Some, None};
    ghost use Rattle.protocol.specs.Nodes.{has_later_time, new_stamp};

    /// The next call, and its stamp of a view. None where no later time or no further number is left.
    pub(crate) fn next(self, view: ViewNo) -> Option<(CallId, Stamp)>
        ensures { result ≡ (if not (has_later_time self.stamps.known) || nat_eq self.seq (2 ^ 64 - 1) then None
            else Some (record { boot = self.stamps.boot; seq = self.seq + 1 }, new_stamp self.me view self.now self.stamps.boot self.stamps.known)) }
    {
        let Some(seq) = self.seq.checked_add(1) else {
            return None;
        };
        let mut stamps = self.stamps;
        let Some(stamp) = stamps.next(self.now, view, self.me) else {
            return None;
        };
        let call = CallId {
            boot: self.stamps.boot,
            seq,
        };
        Some((call, stamp))
    }
}
