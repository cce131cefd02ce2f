//! `brick format`.

ghost use Rattle.std.specs.Prelude.{◌≡◌, ◌≢◌, ◌≤◌, [], true, OnOk};
ghost use Rattle.fab_disk.specs.Changing.{IsAny, Run};
ghost use Rattle.frame_store.specs.Images.{OpensAs};
ghost use Rattle.frame_store.specs.Layouts.{shape_of, formed};
ghost use Rattle.brick_state.specs.States.{empty};
ghost use Rattle.brick_store.specs.Images.{StandsFor};
ghost use Rattle.brick_store.specs.Openings.{making_end};
ghost use Rattle.fab_host.specs.Holdings.{IsFree};
ghost use Rattle.fab_host.specs.Opening.{WhereTold};
ghost use Rattle.brick.specs.Endings.{status_of};
ghost use Rattle.brick.specs.Formats.{MakesStore, FormatsBrick, made_form};
ghost use Rattle.brick.specs.Hosts.{host_seen};
ghost use Rattle.brick.specs.Layouts.{brick_of};

use crate::endings::Ending;
use crate::layout_texts::brick_of;
use fab_base::BrickId;
use fab_disk::Disk;
use fab_host::Host;
use fab_io::IoFault;
use layout::Layout;
use std::alloc::Global;

/// Makes the store of the brick of this number on the fresh disk of this name, and gives the disk back.
pub(crate) fn format<H: Host>(
    alloc: Global,
    host: &mut H,
    name: &str,
    layout: &Layout,
    id: u64,
) -> Ending
    ensures formats { FormatsBrick H.Disk.tells H.Disk.seen H.Disk.may_leave H.Disk.faults layout.now (brick_of layout.now id)
        (host_seen (H.faults host.old) (H.asked host.old) (H.holds host.old))
        (host_seen (H.faults host.new) (H.asked host.new) (H.holds host.new)) name.now result }
    ensures stays { H.sound host.old → H.sound host.new }
    ensures sink { status_of result ≢ 6 }
    ensures disk { H.sound host.old → result ≢ Ending.Disk }
    ensures taken { H.sound host.old → result ≡ Ending.Host → WhereTold (H.holds host.old) (λ h. ¬ (IsFree h name.now)) }
{
    match brick_of(layout, id) {
        Some(me) => make_store(alloc, host, name, layout, me),
        None => Ending::Usage,
    }
}

/// Makes the store of a brick on the fresh disk of this name, and gives the disk back.
fn make_store<H: Host>(
    alloc: Global,
    host: &mut H,
    name: &str,
    layout: &Layout,
    me: BrickId,
) -> Ending
    ensures makes { MakesStore H.Disk.tells H.Disk.seen H.Disk.may_leave H.Disk.faults layout.now me
        (host_seen (H.faults host.old) (H.asked host.old) (H.holds host.old))
        (host_seen (H.faults host.new) (H.asked host.new) (H.holds host.new)) name.now result }
    ensures stays { H.sound host.old → H.sound host.new }
    ensures sink { status_of result ≢ 6 }
    ensures disk { H.sound host.old → result ≢ Ending.Disk }
    ensures taken { H.sound host.old → result ≡ Ending.Host → WhereTold (H.holds host.old) (λ h. ¬ (IsFree h name.now)) }
{
    let mut disk = match host.disk(name, true) {
        Ok(disk) => disk,
        Err(IoFault::Failed) => return Ending::Host,
        Err(IoFault::NoMemory) => return Ending::Memory,
    };
    let is_old = layout.store() == 1;
    let made = make_on(
        alloc,
        &mut disk,
        me,
        layout.block(),
        layout.records(),
        is_old,
    );
    host.keep_disk(name, disk);
    match made {
        Ok(()) => Ending::Formatted(me),
        Err(IoFault::Failed) => Ending::Disk,
        Err(IoFault::NoMemory) => Ending::Memory,
    }
}

/// Makes an empty store on a disk, of the old format or of the new one.
fn make_on<D: Disk>(
    alloc: Global,
    disk: &mut D,
    me: BrickId,
    block: u16,
    records: u32,
    is_old: bool,
) -> Result<(), IoFault>
    requires block_range { (1 ≤ block) × (block ≤ 4096) }
    requires records_range { (1 ≤ records) × (records ≤ 1048576) }
    ensures change { Run D.Disk 5 IsAny IsAny (StandsFor (shape_of me.0 block records) empty) disk.old disk.new (making_end result) }
    ensures form { D.tells → OnOk result (OpensAs (formed (made_form is_old) (shape_of me.0 block records)) [] true (D.seen disk.new)) }
{
    if is_old {
        brick_store::format_one(alloc, disk, me, block, records)
    } else {
        brick_store::format(alloc, disk, me, block, records)
    }
}
