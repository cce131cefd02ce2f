//! Where a brick's new stamps come from.

ghost use Rattle.std.specs.Prelude.{◌≡◌, ◌≢◌, ◌-◌, ◌+◌, ◌^◌, ◌<◌, ◌↔◌, max, IsNone, IfSome};
ghost use Rattle.stamp_store.specs.Sources.{opened, next_stamp, after_next, after_seen, TimesRise, NeverMakeTheSame};

use fab_base::{BrickId, Stamp, ViewNo};

/// Makes the stamps of one brick since one opening of its store. Each has a greater time than all that it made or saw before
/// (Frølund 2004, `newTS`).
#[derive(Clone, Copy, PartialEq, Eq)]
pub struct StampSource {
    /// How often the brick's store had been opened, from 1.
    pub boot: u32,
    /// The greatest time made or seen since then, 0 at first.
    pub known: u64,
}

impl StampSource {
    /// The source of an opening, which has made and seen nothing.
    pub fn new(boot: u32) -> StampSource
        ensures { result ≡ opened boot }
    {
        StampSource { boot, known: 0 }
    }

    /// A new stamp of this view and brick: its time is the clock's reading, or one more than the greatest time known where
    /// that is greater. None exactly where the greatest time known is 2^64 - 1; then nothing changes.
    pub fn next(&mut self, now: u64, view: ViewNo, brick: BrickId) -> Option<Stamp>
        ensures spent { IsNone result ↔ (self.old.known ≡ 2 ^ 64 - 1) }
        ensures stamp { result ≡ next_stamp self.old now view brick }
        ensures rises { IfSome result (λ stamp. self.old.known < stamp.time) }
        ensures known { self.new ≡ after_next self.old now view brick }
    {
        let later = self.known.checked_add(1)?;
        let time = now.max(later);
        self.known = time;
        Some(Stamp {
            view,
            time,
            brick,
            boot: self.boot,
        })
    }

    /// Takes note of a stamp of another brick.
    pub fn saw(&mut self, stamp: Stamp)
        ensures { self.new ≡ after_seen self.old stamp }
    {
        self.known = self.known.max(stamp.time);
    }
}

/// The stamps of one brick differ: those of one opening of its store have rising times, and those of two openings have two
/// boot counts. The call does nothing: its contract is the law, over all that the sources are ever used for.
pub fn stamps_differ(source: StampSource, other: StampSource)
    ensures rise { TimesRise source }
    ensures over_boots { source.boot ≢ other.boot → NeverMakeTheSame source other }
{}
