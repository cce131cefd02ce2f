//! How the program ends.

ghost use Rattle.std.specs.Prelude.{◌≡◌, ◌≢◌, IfOk, string_bytes};
ghost use Rattle.std.specs.Io.KnownBytes.{Keeps};
ghost use Rattle.fab_io.specs.Ends.{Kept, WriteTakes};
ghost use Rattle.brick.specs.Endings.{status_of, serving_text, session_text, text_of, Prints};
ghost use Rattle.brick.specs.Hosts.{refusal_by};

use fab_base::BrickId;
use fab_io::{IoFault, Sink};
use layout::LayoutFault;
use nbd_front::End;
use std::alloc::{AllocError, Global};

/// How the program ends, but for a sink that fails at its last text.
#[derive(Drop)]
pub enum Ending {
    /// The store of this brick was made.
    Formatted(BrickId),
    /// The brick served all its turns.
    Ended {
        /// How many turns it served.
        turns: u64,
        /// How many datagrams came in them that are no message.
        malformed: u64,
    },
    /// The commands were run, until their turns were used up or the source of them was at its end.
    Commanded,
    /// The client of a session was served, until it ended so.
    Served(End),
    /// The words are of no form, or the layout has no brick of this number.
    Usage,
    /// The source's text is no layout.
    BadLayout(LayoutFault),
    /// The source has more bytes than a layout may.
    LongLayout,
    /// The source failed, or that of a session.
    Source,
    /// The sink failed as the brick said that it serves, or at an answer to a command; or that of a session failed.
    Sink,
    /// No memory was left.
    Memory,
    /// A disk failed.
    Disk,
    /// The host, a link or the clock failed.
    Host,
    /// A disk holds no store of this layout and brick, or one that keeps a list which may not be a group's members.
    NotAStore,
    /// A disk's store was opened as often as it can be.
    Worn,
}

impl From<AllocError> for Ending {
    ghost use Rattle.brick.specs.declared.endings.Ending.TheVariants.{Memory};

    ghost from_gives = { λ _ ending. ending ≡ Memory };

    fn from(_error: AllocError) -> Ending {
        Ending::Memory
    }
}

impl Ending {
    /// How a call of the host that opened nothing ends the program.
    pub(crate) fn refusal(fault: IoFault) -> Ending
        ensures { result ≡ refusal_by fault }
    {
        match fault {
            IoFault::Failed => Ending::Host,
            IoFault::NoMemory => Ending::Memory,
        }
    }

    /// The exit status.
    fn status(&self) -> u8
        ensures { result ≡ status_of self.now }
    {
        match self {
            Ending::Formatted(_) | Ending::Ended { .. } | Ending::Commanded | Ending::Served(_) =>
                0,
            Ending::Usage => 2,
            Ending::BadLayout(_) | Ending::LongLayout => 3,
            Ending::Source => 5,
            Ending::Sink => 6,
            Ending::Memory => 7,
            Ending::Disk => 9,
            Ending::Host => 10,
            Ending::NotAStore => 11,
            Ending::Worn => 12,
        }
    }

    /// The last text; an empty one is not printed.
    fn text(&self, alloc: Global) -> Result<String, AllocError>
        ensures { IfOk result (λ text. string_bytes text ≡ text_of self.now) }
    {
        match self {
            Ending::Formatted(me) => {
                let id = me.0;
                Ok(format!(in alloc; "formatted {id}\n")?)
            }
            Ending::Ended { turns, malformed } => {
                Ok(format!(in alloc; "ended {turns} malformed {malformed}\n")?)
            }
            Ending::Served(end) => Ok(String::from_str(alloc, session_text(*end))?),
            Ending::BadLayout(fault) => Ok(format!(in alloc; "bad layout: {fault}\n")?),
            Ending::Usage => Ok(String::from_str(alloc, USAGE)?),
            Ending::LongLayout => Ok(String::from_str(alloc, "bad layout: limit layout\n")?),
            Ending::Disk => Ok(String::from_str(alloc, "disk\n")?),
            Ending::Host => Ok(String::from_str(alloc, "host\n")?),
            Ending::NotAStore => Ok(String::from_str(alloc, "not a store\n")?),
            Ending::Worn => Ok(String::from_str(alloc, "worn\n")?),
            Ending::Commanded | Ending::Source | Ending::Sink | Ending::Memory => {
                Ok(String::new(alloc))
            }
        }
    }
}

/// The usage line.
const USAGE: &str =
    "usage: brick format LAYOUT DISK ID | serve LAYOUT DISK ID TURNS | local LAYOUT PREFIX TURNS | nbd LAYOUT PREFIX TCPPORT TURNS\n";

/// The line that says how a session ended.
fn session_text(end: End) -> &'static str
    ensures { result.now ≡ session_text end }
{
    match end {
        End::Disc => "nbd disc\n",
        End::Abort => "nbd abort\n",
        End::Eof => "nbd end\n",
        End::Dropped => "nbd dropped\n",
        End::NoExport => "nbd noexport\n",
        End::Turns => "nbd turns\n",
    }
}

/// Writes the last text of a program that ends so, and answers its exit status: 6 where the sink fails, 7 where no memory is left.
pub(crate) fn finish<K: Sink>(alloc: Global, out: &mut K, ending: &Ending) -> u8
    ensures printed { Prints (K.told out.old) (K.told out.new) (text_of ending.now) (status_of ending.now) result }
    ensures kept { Kept (K.faults out.old) (K.faults out.new) (K.sound out.old) (K.sound out.new)
        ((result ≡ 6) × (status_of ending.now ≢ 6)) }
{
    match write_text(alloc, out, ending) {
        Ok(()) => ending.status(),
        Err(IoFault::Failed) => 6,
        Err(IoFault::NoMemory) => 7,
    }
}

/// Writes the last text of a program that ends so.
fn write_text<K: Sink>(alloc: Global, out: &mut K, ending: &Ending) -> Result<(), IoFault>
    ensures content { WriteTakes (K.told out.old) (K.told out.new) result (text_of ending.now) }
    ensures memory { result ≡ Err IoFault.NoMemory → Keeps (K.told out.old) (K.told out.new) }
    ensures kept { Kept (K.faults out.old) (K.faults out.new) (K.sound out.old) (K.sound out.new) (result ≡ Err IoFault.Failed) }
{
    let text = ending.text(alloc)?;
    if text.is_empty() {
        return Ok(());
    }
    out.write(text.as_bytes())
}

/// Says that this brick serves. The line stays printed, also if no memory is left behind it.
pub(crate) fn say_serving<K: Sink>(alloc: Global, out: &mut K, me: BrickId) -> Result<(), IoFault>
    ensures content { WriteTakes (K.told out.old) (K.told out.new) result (serving_text me) }
    ensures memory { result ≡ Err IoFault.NoMemory → Keeps (K.told out.old) (K.told out.new) }
    ensures kept { Kept (K.faults out.old) (K.faults out.new) (K.sound out.old) (K.sound out.new) (result ≡ Err IoFault.Failed) }
{
    let id = me.0;
    let text = format!(in alloc; "serving {id}\n")?;
    out.write(text.as_bytes())
}
