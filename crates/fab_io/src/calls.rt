// Which calls of an end in memory are to fail.
ghost use Rattle.std.specs.Prelude.{◌≡◌, ◌≤◌, ◌↔◌, IsTrue, OnOk, OnErr};
ghost use Rattle.fab_io.specs.Ends.{Kept, Rose, one_more};
ghost use Rattle.fab_io.specs.Calls.{no_calls, FailsNext, NoneToFail, after_call, after_failed_call};

use crate::fault::raise;
use fab_base::IoFault;
use std::alloc::Global;
use std::marker::Model;

/// The calls made of an end in memory. They are numbered from 1, and the listed ones fail.
#[derive(Drop)]
pub struct Calls {
    made: u64,
    failing: Vec<u64>,
    faults: u64,
}

impl Model for Calls {
    ghost use Rattle.fab_io.specs.Calls.{CallCount};

    ghost Value = { CallCount };

    ghost view = { λ c. record { made = c.made; failing = c.failing.items; faults = c.faults } };
}

impl Calls {
    /// No call was made, and none is to fail.
    pub fn new(alloc: Global) -> Calls
        ensures { result ≡ no_calls }
    {
        Calls {
            made: 0,
            failing: Vec::new(alloc),
            faults: 0,
        }
    }

    /// Puts this list of the calls that are to fail in the place of the one before.
    pub fn fail_at(&mut self, calls: Vec<u64>)
        ensures { self.new ≡ record self.old { failing = calls.items } }
    {
        self.failing = calls;
    }

    /// Whether the coming call is to fail.
    pub fn fails_next(&self) -> bool
        ensures { IsTrue result ↔ FailsNext self.now }
    {
        let failing = self.failing.as_slice();
        match self.made.checked_add(1) {
            Some(call) => failing.contains(&call),
            None => false,
        }
    }

    /// Counts one more call, and fails where it is a listed one.
    pub fn count(&mut self) -> Result<(), IoFault>
        ensures ok { OnOk result (self.new ≡ after_call self.old) }
        ensures err { OnErr result (self.new ≡ after_failed_call self.old) }
        ensures fails { (result ≡ Err IoFault.Failed) ↔ FailsNext self.old }
        ensures answer { OnErr result (result ≡ Err IoFault.Failed) }
        ensures kept { Kept self.old.faults self.new.faults (NoneToFail self.old) (NoneToFail self.new)
            (result ≡ Err IoFault.Failed) }
    {
        let fails = self.fails_next();
        self.made = self.made.saturating_add(1);
        if fails {
            return Err(raise(&mut self.faults));
        }
        Ok(())
    }

    /// Counts a fault that has another cause, in a call that was counted.
    pub fn refuse(&mut self) -> IoFault
        ensures counted { self.new ≡ record self.old { faults = one_more self.old.faults } }
        ensures later { self.old.faults ≤ self.new.faults }
        ensures rose { Rose self.old.faults self.new.faults }
        ensures answer { result ≡ IoFault.Failed }
    {
        raise(&mut self.faults)
    }
}
