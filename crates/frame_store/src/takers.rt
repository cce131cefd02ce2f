//! What takes the frames of a list as they are read.

ghost use Rattle.std.specs.Prelude.{◌≡◌, Bool, List, ◌++◌, ◌∷◌, [], OnOk};
ghost use Rattle.frame_store.specs.declared.frames.Frame.{Frame};
ghost use Rattle.frame_store.specs.Listed.{frame_of};

use fab_base::NoMem;

/// Takes the frames of a list, one after another, and makes of them what it is for.
pub trait TakesFrames {
    /// What these frames, in this order, make of the first is the second; it is told whether they are of the old format.
    ghost makes: { Self → Bool → List Frame → Self → Type 0 };

    /// Begins a list, which is of the old format or not. No frame was taken yet.
    ///
    /// # Errors
    /// Memory was refused.
    fn begin(&mut self, old: bool) -> Result<(), NoMem>
        ensures { OnOk result (makes self.old old [] self.new) };

    /// Takes one frame more. Its body is lent for the call.
    ///
    /// # Errors
    /// Memory was refused.
    fn take(&mut self, kind: u8, body: &[u8]) -> Result<(), NoMem>
        ensures { OnOk result ((first : Self) (old : Bool) (frames : List Frame) → makes first old frames self.old
            → makes first old (frames ++ frame_of kind body.now ∷ []) self.new) };
}
