//! What an operation is answered, and why one is not begun.

ghost use Rattle.std.specs.Prelude.{◌≡◌, IfOk, string_bytes};
ghost use Rattle.fab_base.specs.Texts.{cause_text, refusal_text};

use crate::block_bytes::Bytes;
use crate::faults::NoMem;
use crate::identities::{BrickId, ViewNo};
use crate::stamps::Stamp;
use std::alloc::Global;

/// Why an operation was aborted. What it would have done has happened by then, or never will
/// (Aguilera and Frølund 2003).
#[derive(Clone, Copy, PartialEq, Eq)]
pub enum Cause {
    /// This brick had promised or stored a later stamp.
    Later {
        /// The brick.
        brick: BrickId,
        /// The later stamp.
        stamp: Stamp,
    },
    /// This brick had dropped its versions of the view before.
    Gone {
        /// The brick.
        brick: BrickId,
    },
    /// This brick's store had no room for another record.
    Full {
        /// The brick.
        brick: BrickId,
        /// How many live records its store held.
        live: u32,
    },
    /// This brick had learnt a later view.
    Moved {
        /// The brick.
        brick: BrickId,
        /// The later view.
        view: ViewNo,
    },
}

impl Cause {
    /// The line that says it, with the line feed.
    pub fn text(&self, alloc: Global) -> Result<String, NoMem>
        ensures { IfOk result (λ text. string_bytes text ≡ cause_text self.now) }
    {
        Ok(match self {
            Cause::Later { brick, stamp } => format!(in alloc; "later {brick} {stamp}\n")?,
            Cause::Gone { brick } => format!(in alloc; "gone {brick}\n")?,
            Cause::Full { brick, live } => format!(in alloc; "full {brick} {live}\n")?,
            Cause::Moved { brick, view } => {
                let view = view.0;
                format!(in alloc; "moved {brick} {view}\n")?
            }
        })
    }
}

/// The end of an operation.
#[derive(Drop)]
pub enum Answer {
    /// What a read read.
    Data(Bytes),
    /// A write was done.
    Done,
    /// The operation was given up.
    Aborted(Cause),
}

/// Why an operation is not begun. Nothing has changed then.
#[derive(Clone, Copy, Debug, PartialEq, Eq)]
pub enum Refusal {
    /// The brick is not up.
    Down,
    /// There is no such group or stripe.
    NoStripe,
    /// The bricks that a scrub names are not distinct members of the brick's view, or fewer than a quorum.
    NoQuorum,
    /// There is no such data block.
    NoBlock,
    /// The bytes to write are not one block, or not m blocks.
    Length,
    /// The brick has 64 operations open; or, for a proposal, a synchronisation or a scrub, it has one of these open already.
    Busy,
    /// The brick has no later time, or no further call number.
    Spent,
}

impl Refusal {
    /// The line that says it, with the line feed.
    pub fn text(self, alloc: Global) -> Result<String, NoMem>
        ensures { IfOk result (λ text. string_bytes text ≡ refusal_text self) }
    {
        let text = match self {
            Refusal::Down => "refused down\n",
            Refusal::NoStripe => "refused nostripe\n",
            Refusal::NoQuorum => "refused noquorum\n",
            Refusal::NoBlock => "refused noblock\n",
            Refusal::Length => "refused length\n",
            Refusal::Busy => "refused busy\n",
            Refusal::Spent => "refused spent\n",
        };
        Ok(String::from_str(alloc, text)?)
    }
}
