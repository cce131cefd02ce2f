//! The disk that made schedules run over.

ghost use Rattle.std.specs.Prelude.{◌≡◌, Ok, IfOk};
ghost use Rattle.layout.specs.Texts.{layout_of};
ghost use Rattle.made.specs.Disks.{made_layout};

use fab_base::NoMem;
use layout::Layout;
use std::alloc::Global;

/// The text of its layout.
pub const DISK: &[u8] =
    b"block = 4\nbricks = 6\nrecords = 100000\n[[group]]\nm = 2\nmembers = [0, 1, 2, 3]\nstripes = 8\n";

/// The text of its layout.
pub fn disk_text() -> &'static [u8]
    ensures { layout_of result.now ≡ Ok made_layout }
{
    DISK
}

/// Its layout.
///
/// # Errors
///
/// `NoMemory` where no memory was left.
pub fn made_disk(alloc: Global) -> Result<Layout, NoMem>
    ensures { IfOk result (λ layout. layout ≡ made_layout) }
{
    match Layout::read(alloc, disk_text()) {
        Ok(layout) => Ok(layout),
        Err(_) => Err(NoMem::NoMemory),
    }
}
