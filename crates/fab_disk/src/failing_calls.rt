// Calls that are to fail, by their number.
ghost use Rattle.std.specs.Prelude.{◌≡◌, ◌≢◌, ◌↔◌, ◌<◌, ◌-◌, ◌^◌, IsTrue, false};

use crate::disk::Fate;
use std::alloc::Global;

#[derive(Drop)]
pub struct FailingCalls {
    pub listed: Vec<u64>,
    pub made: u64,
}

impl FailingCalls {
    ghost use Rattle.fab_disk.specs.FailingCalls.{NoneLeft, FailsNext};

    // No call is to fail.
    pub fn none(alloc: Global) -> Self
        ensures { NoneLeft result }
    {
        FailingCalls {
            listed: Vec::new(alloc),
            made: 0,
        }
    }

    // The calls of these numbers, from 1 for the next one.
    pub fn of(listed: Vec<u64>) -> Self
        ensures listed { result.listed.items ≡ listed.items }
        ensures made { result.made ≡ 0 }
    {
        FailingCalls { listed, made: 0 }
    }

    // Counts a call, and says whether it is to fail.
    pub fn next_fails(&mut self) -> bool
        ensures exact { self.old.made < 2 ^ 64 - 1 → (IsTrue result ↔ FailsNext self.old) }
        ensures never { NoneLeft self.old → result ≡ false }
        ensures stays { NoneLeft self.old → NoneLeft self.new }
    {
        if self.made == u64::MAX {
            return false;
        }
        self.made += 1;
        self.listed.contains(&self.made)
    }

    // Counts a call, and says what befalls it where a plan has this befall it.
    pub fn or_listed(&mut self, planned: Fate) -> Fate
        ensures planned { planned ≢ Fate.Goes → result ≡ planned }
        ensures exact { planned ≡ Fate.Goes → self.old.made < 2 ^ 64 - 1 → (result ≡ Fate.Fails ↔ FailsNext self.old) }
        ensures never { NoneLeft self.old → result ≡ planned }
        ensures stays { NoneLeft self.old → NoneLeft self.new }
    {
        let listed = self.next_fails();
        match planned {
            Fate::Goes if listed => Fate::Fails,
            fate => fate,
        }
    }
}
