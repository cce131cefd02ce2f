//! The append of a frame, with a block in its slot where one is given.

ghost use Rattle.std.specs.Prelude.{◌≡◌, false, ◌≢◌, ◌++◌, ◌∷◌, [], Err, length, option_map};
ghost use Rattle.frame_store.specs.Layouts.{is_old};
ghost use Rattle.frame_store.specs.Listed.{Fits};
ghost use Rattle.brick_store.specs.Calls.{version_calls};
ghost use Rattle.brick_store.specs.Steps.{FitsSlot, HasAppendRoom, ListAnswer, put_in};

use fab_disk::Disk;
use frame_store::{Frame, FrameFault, FrameStore};

/// Appends a frame that fits in the half, with a block in its slot where one is given.
///
/// # Errors
/// [`FrameFault::Halted`], [`FrameFault::Disk`]; [`FrameFault::NoMemory`], before the disk changed.
pub fn append_frame<D: Disk>(
    frames: &mut FrameStore<D>,
    frame: Frame,
    slot_block: Option<(u32, &[u8])>,
) -> Result<(), FrameFault>
    requires new { is_old frames.old.shape ≡ false }
    requires fits { Fits frames.old.shape frames.old.frames (length frame.body) }
    requires slot { FitsSlot frames.old.shape (option_map (λ b. put_in b.0 b.1.now) slot_block) }
    ensures answer { let put = option_map (λ b. put_in b.0 b.1.now) slot_block.entry in
        ListAnswer D.Disk (version_calls put) (frames.old.frames ++ frame ∷ []) put frames.old frames.new result }
    // Within what was reserved, memory is not refused.
    ensures room { HasAppendRoom D.has_room frames.old (length frame.body) → result ≢ Err FrameFault.NoMemory }
{
    match slot_block {
        Some((slot, block)) => frames.append_with(slot, block, frame),
        None => frames.append(frame.kind, frame.body.as_slice()),
    }
}
