//! The sizes of a view, and of its quorums.

ghost use Rattle.std.specs.Prelude.{◌≡◌, ◌+◌, ◌*◌, ◌≤◌, ◌↔◌, IsSome, IfSome};
ghost use Rattle.quorum.specs.Quorums.{IsWithinLimits, QuorumsMeet, f_of, q_of};

use std::marker::Model;

/// How many seats a view has, and how many of their blocks give back a stripe (Frølund 2004, an m-quorum system).
///
/// A stripe has m data blocks, 1 to 16, and n blocks in all, one for each seat, m to 32.
#[derive(Clone, Copy, PartialEq, Eq)]
pub struct Policy {
    m: u8,
    n: u8,
}

impl Model for Policy {
    ghost use Rattle.quorum.specs.Quorums.{Scheme, IsWithinLimits};

    ghost Value = { Scheme };

    ghost view = { λ policy. record { m = policy.m; n = policy.n } };

    ghost invariant = { λ policy. IsWithinLimits policy.m policy.n };

    ghost inverse = { λ scheme. record { m = scheme.m; n = scheme.n } };
}

impl Policy {
    /// The policy of m data blocks and n seats. None exactly outside 1 <= m <= 16, m <= n <= 32.
    pub fn new(m: u8, n: u8) -> Option<Policy>
        ensures limits { IsSome result ↔ IsWithinLimits m n }
        ensures sizes { IfSome result (λ policy. (policy.m ≡ m) × (policy.n ≡ n)) }
    {
        if m < 1 || m > 16 || n < m || n > 32 {
            return None;
        }
        Some(Policy { m, n })
    }

    /// How many data blocks a stripe has, 1 to 16.
    pub fn m(self) -> u8
        ensures value { result ≡ self.m }
        ensures limits { IsWithinLimits self.m self.n }
    {
        self.m
    }

    /// How many seats there are, m to 32.
    pub fn n(self) -> u8
        ensures value { result ≡ self.n }
        ensures limits { IsWithinLimits self.m self.n }
    {
        self.n
    }

    /// How many seats a phase need not wait for: half of the n - m seats past the data blocks, rounded down.
    pub fn f(self) -> u8
        ensures value { result ≡ f_of self.m self.n }
        ensures limits { IsWithinLimits self.m self.n }
    {
        (self.n - self.m) / 2
    }

    /// How many seats make a quorum: all but f.
    pub fn q(self) -> u8
        ensures value { result ≡ q_of self.m self.n }
        ensures at_least_m { self.m ≤ result }
        ensures at_most_n { result ≤ self.n }
        ensures meets { self.n + self.m ≤ 2 * result }
        ensures limits { IsWithinLimits self.m self.n }
    {
        self.n - self.f()
    }
}

/// Any two quorums of one view share at least m seats. The call does nothing: its contract is the law.
pub fn quorums_meet(m: u8, n: u8)
    requires { IsWithinLimits m n }
    ensures { QuorumsMeet m n }
{}
