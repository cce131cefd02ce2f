//! Disks: what a store asks of one, and two kinds of it.
//!
//! A [`Disk`] holds bytes. Between two syncs each range that was written, and what lies past the old end, may hold any
//! bytes after a crash; every other byte stays. After a sync that succeeded a crash leaves what a read gives.
//!
//! [`MemDisk`] meets this model in memory, and can be made to fail, or to stop inside a call and then hold one of the
//! images that the model allows. [`FileDisk`] is a real file; what it holds is not told.
#![tactic(auto)]

mod disk;
mod failing_calls;
mod file_disk;
mod medium;
mod mem_disk;
mod pages;
mod scattering;

pub use disk::{Armed, Disk, MAX_END, Plan};
pub use fab_base::IoFault;
pub use file_disk::FileDisk;
pub use mem_disk::MemDisk;
