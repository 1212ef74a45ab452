//! Clocks.
ghost use Rattle.std.specs.Prelude.{◌≡◌, ℕ, List, Option, IfSome};
ghost use Rattle.std.specs.Option.{option_map};
ghost use Rattle.sf_clock.specs.Moments.{next_of, behind};

/// A clock. It never fails, and its moments need not rise.
pub trait Clock {
    /// The moments that it will give, the next of them first, where it tells them. The last one comes again and again.
    ghost ahead: { Self → Option (List ℕ) };

    /// The moment now, in milliseconds.
    fn now(&mut self) -> u64
        ensures next { IfSome (ahead self.old) (λ moments. result ≡ next_of moments) }
        ensures rest { ahead self.new ≡ option_map behind (ahead self.old) };
}
