//! A list of frames that stands in proofs alone. It takes no memory.

ghost use Rattle.std.specs.Prelude.{List, ◌≡◌};
ghost use Rattle.std.specs.Borrow.{ftrue};
ghost use Rattle.std.specs.Coded.{coded_list};
ghost use Rattle.frame_store.specs.declared.frames.Frame.{Frame};
ghost use Rattle.frame_store.specs.contracts.frames.Frame as frame;

use crate::frames::Frame;
use std::marker::Model;

/// The frames of a store. It has no bytes.
#[derive(Drop)]
pub struct Listing {
    pub ghost frames: { List Frame } by { coded_list frame.the_row.coded },
}

impl Model for Listing {
    // It owns nothing. A struct whose ghost field is no fact has to say so.
    ghost also_owns = { λ _. ftrue };
}

impl Listing {
    ghost use Rattle.std.specs.Prelude.{◌≡◌, [], ◌∷◌, ◌++◌};
    ghost use Rattle.frame_store.specs.Listed.{frame_of};

    /// No frame yet.
    pub(crate) fn new() -> Listing
        ensures { result.frames ≡ [] }
    {
        Listing {}
    }

    /// One frame more.
    pub(crate) fn with(_before: &Listing, _kind: &u8, _body: &[u8]) -> Listing
        ensures { result.frames ≡ _before.now.frames ++ frame_of _kind.now _body.now ∷ [] }
    {
        Listing {}
    }
}
