//! Replies that no longer count.

use crate::operations::Operation;

impl Operation {
    ghost use Rattle.std.specs.Prelude.{◌≡◌};
    ghost use Rattle.protocol.specs.Coordinators.{forgetting};
    ghost use Rattle.coord_phase.specs.Operations.{with_state};

    /// Forgets the replies that counted.
    pub fn forget(&mut self)
        ensures { self.new ≡ with_state self.old (forgetting self.old.state) }
    {
        let policy = self.asked().policy();
        self.replies.clear(policy);
    }
}
