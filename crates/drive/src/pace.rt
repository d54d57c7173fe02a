// The pace of a drive whose writes wait: how many of them it completes.
ghost use Rattle.std.specs.Prelude.{◌≡◌, ℕ, ◌≤◌};

use crate::device::Kind;

pub trait Pace {
    type Of: Kind;

    // How many of the oldest writes an accepted post completes, and how many a step.
    ghost in_post: { Self → ℕ };

    ghost in_step: { Self → ℕ };

    // The pace after that.
    ghost next: { Self → Self };

    fn post(&mut self) -> usize
        ensures count { result ≡ in_post self.old }
        ensures moved { self.new ≡ next self.old };

    fn step(&mut self) -> usize
        ensures count { result ≡ in_step self.old }
        ensures moved { self.new ≡ next self.old };

    // A queue has room for four writes.
    ghost fits: { Self.Of.DEPTH ≤ 4 };

    ghost completes: { (p : Self) → 1 ≤ in_step p };
}
