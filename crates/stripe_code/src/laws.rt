//! The law of the code. The call does nothing: its contract is the law.

ghost use Rattle.stripe_code.specs.Codes.{EveryCodingIsSound};

/// A disk of any layout keeps its stripes soundly by this code: a block has bytes; each group is within the limits of a quorum
/// and has distinct members; any m blocks of a stripe's codeword give its content back, and the data blocks are among them; what
/// a data block changes by makes of each seat's block that of the changed content; and the zero content has a zero block at
/// every seat (Reed and Solomon 1960; Frølund et al., DSN 2004).
pub fn coding_is_sound()
    ensures { EveryCodingIsSound }
{}
