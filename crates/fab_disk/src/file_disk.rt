// A real file as a disk.
ghost use Rattle.std.specs.Prelude.{◌≡◌, IfOk, IsErr, IsOkUnless};
ghost use Rattle.fab_disk.specs.Disk.{Kept};

use crate::Disk;
use fab_base::IoFault;
use std::fs::{File, OpenFile};
use std::io;
use std::io::{Seek, SeekFrom};
use std::os::unix::fs::FileExt;

/// A file that is open for reading and writing. Nothing is told of what it holds, and no call of it is known to succeed.
pub struct FileDisk {
    file: File,
    faults: u64,
}

impl Drop for FileDisk {
    // Written out, it is proved once: a derived one is proved anew, with that of each part, in each crate above that lets one go.
    fn drop(self) {
        let Self { file: _, faults: _ } = self;
    }
}

impl FileDisk {
    /// A disk over this file, which has not failed yet.
    pub fn new(file: File) -> FileDisk {
        FileDisk { file, faults: 0 }
    }

    // Counts an error.
    fn count<T: Drop>(&mut self, outcome: io::Result<T>) -> Result<T, IoFault>
        ensures cause { Kept self.old.faults self.new.faults ⊥ ⊥ (IsErr result) }
        ensures only { IsOkUnless result IoFault.Failed }
    {
        match outcome {
            Ok(value) => Ok(value),
            Err(_) => {
                self.faults = self.faults.saturating_add(1);
                Err(IoFault::Failed)
            }
        }
    }
}

impl Disk for FileDisk {
    ghost use Rattle.std.specs.Prelude.{[]};
    ghost use Rattle.fab_disk.specs.declared.disk.Plan.TheVariants.{Never};

    ghost tells = { ⊥ };

    ghost seen = { λ _. [] };

    ghost may_leave = { λ _ _. Unit {0} };

    ghost moment = { λ _. 0 };

    ghost certain = { λ _. [] };

    ghost left_since = { λ _ _ _. Unit {0} };

    ghost faults = { λ disk. disk.faults };

    ghost sound = { λ _. ⊥ };

    ghost plan = { λ _. Never };

    ghost unlisted = { λ _. ⊥ };

    ghost has_room = { λ _ _ _ _. Unit {0} };

    ghost room_for_less = { λ _ _ _ _ _ _ _ _ _ _ _. tt };

    ghost seen_is_left = { λ _. tt };

    ghost certain_is_left = { λ _. tt };

    ghost counts_now = { λ _ _ _ _ _. tt };

    ghost only_now = { λ _ _ _. tt };

    ghost sound_unplanned = { λ _ _ listed. listed };

    ghost never_planned = { λ _ sound. absurd sound };

    ghost never_listed = { λ _ sound. sound };

    fn len(&mut self) -> Result<u64, IoFault> {
        let end = self.file.seek(SeekFrom::End(0));
        self.count(end)
    }

    fn read_at(&mut self, at: u64, into: &mut [u8]) -> Result<(), IoFault> {
        let outcome = self.file.read_exact_at(into, at);
        self.count(outcome)
    }

    fn reserve(&mut self, _calls: usize, _bytes: usize, _end: u64) -> Result<(), IoFault> {
        Ok(())
    }

    fn write_at(&mut self, at: u64, from: &[u8]) -> Result<(), IoFault> {
        let outcome = self.file.write_all_at(from, at);
        self.count(outcome)
    }

    /// Asks the system to bring all to the medium. What a file holds is told by no clause, so one that did nothing would pass.
    fn sync(&mut self) -> Result<(), IoFault> {
        let outcome = self.file.sync_all();
        self.count(outcome)
    }
}
