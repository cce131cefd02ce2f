//! Reading a layout, and finding a brick of it.

ghost use Rattle.std.specs.Prelude.{◌≡◌, ◌≢◌, ◌⊎◌, OnErr};
ghost use Rattle.std.specs.Io.{ReadsAtMost};
ghost use Rattle.std.specs.Io.KnownBytes.{ReadConsumes};
ghost use Rattle.fab_io.specs.Ends.{Kept};
ghost use Rattle.fab_host.specs.Held.{IsMissing};
ghost use Rattle.fab_host.specs.Opening.{WhereTold};
ghost use Rattle.brick.specs.Hosts.{host_seen};
ghost use Rattle.brick.specs.Layouts.{Gives, TextGives, FindsLayout, brick_of};

use crate::endings::Ending;
use fab_base::{BrickId, Bytes};
use fab_host::Host;
use fab_io::{IoFault, Source};
use layout::texts::LAYOUT_LIMIT;
use layout::{Layout, LayoutFault};
use std::alloc::Global;

/// How many bytes are asked of a source at a time.
const READ_LEN: usize = 4096;

/// Reads the layout that is the text of a source, and gives the source back.
pub(crate) fn find_layout<H: Host>(
    alloc: Global,
    host: &mut H,
    name: &str,
) -> Result<Layout, Ending>
    ensures found { FindsLayout H.Source.told H.Source.faults (host_seen (H.faults host.old) (H.asked host.old) (H.holds host.old))
        (host_seen (H.faults host.new) (H.asked host.new) (H.holds host.new)) name.now result }
    ensures stays { H.sound host.old → H.sound host.new }
    ensures source { H.sound host.old → result ≢ Err Ending.Source }
    ensures missing { H.sound host.old → result ≡ Err Ending.Host → WhereTold (H.holds host.old) (λ h. IsMissing (h.sources name.now)) }
{
    let mut source = match host.source(name) {
        Ok(source) => source,
        Err(IoFault::Failed) => return Err(Ending::Host),
        Err(IoFault::NoMemory) => return Err(Ending::Memory),
    };
    let found = read_layout(alloc, &mut source);
    host.keep_source(name, source);
    found
}

/// Reads the layout that is all that a source has left.
fn read_layout<S: Source>(alloc: Global, source: &mut S) -> Result<Layout, Ending>
    ensures gives { Gives S.told S.faults source.old source.new result }
    ensures kept { Kept (S.faults source.old) (S.faults source.new) (S.sound source.old) (S.sound source.new) (result ≡ Err Ending.Source) }
{
    let text = read_text(alloc, source)?;
    match Layout::read(alloc, text.as_slice()) {
        Ok(layout) => Ok(layout),
        Err(LayoutFault::NoMemory) => Err(Ending::Memory),
        Err(fault) => Err(Ending::BadLayout(fault)),
    }
}

/// Reads all that a source has left, up to the limit of a layout.
fn read_text<S: Source>(alloc: Global, source: &mut S) -> Result<Bytes, Ending>
    ensures gives { TextGives S.told S.faults source.old source.new result }
    ensures kept { Kept (S.faults source.old) (S.faults source.new) (S.sound source.old) (S.sound source.new) (result ≡ Err Ending.Source) }
{
    let mut text = Vec::new(alloc);
    let mut piece = [0; READ_LEN];
    for _ in 0..u64::MAX {
        let came = read_piece(source, &mut piece)?;
        if came == 0 {
            return Ok(Bytes::from_vec(text));
        }
        if came > LAYOUT_LIMIT - text.len() {
            return Err(Ending::LongLayout);
        }
        text.extend_from_slice(&piece[..came])?;
    }
    // No memory holds so many bytes.
    Err(Ending::Memory)
}

/// Reads once more, and answers how many bytes came.
fn read_piece<S: Source>(source: &mut S, piece: &mut [u8]) -> Result<usize, Ending>
    ensures within { ReadsAtMost result piece.new }
    ensures content { ReadConsumes (S.told source.old) (S.told source.new) result piece.new }
    ensures only { OnErr result ((result ≡ Err Ending.Source) ⊎ (result ≡ Err Ending.Memory)) }
    ensures kept { Kept (S.faults source.old) (S.faults source.new) (S.sound source.old) (S.sound source.new) (result ≡ Err Ending.Source) }
{
    match source.read(piece) {
        Ok(came) => Ok(came),
        Err(IoFault::Failed) => Err(Ending::Source),
        Err(IoFault::NoMemory) => Err(Ending::Memory),
    }
}

/// The brick of this number, if the layout has it.
pub(crate) fn brick_of(layout: &Layout, id: u64) -> Option<BrickId>
    ensures { result ≡ brick_of layout.now id }
{
    if id < layout.bricks() as u64 {
        Some(BrickId(id as u16))
    } else {
        None
    }
}
