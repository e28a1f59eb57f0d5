//! Numbers that are drawn from a seed.
ghost use Rattle.std.specs.Prelude.{◌≡◌, ◌/◌, ◌^◌};
ghost use Rattle.lra_sample.specs.Draws.{next_state};

const MULTIPLIER: u64 = 6364136223846793005;

const INCREMENT: u64 = 1442695040888963407;

/// A linear congruential generator modulo 2^64, with the multiplier of C. E. Haynes in the table of Knuth, 1997.
pub(crate) struct Generator {
    pub(crate) state: u64,
}

impl Drop for Generator {
    fn drop(self) {
        let Generator { state: _ } = self;
    }
}

impl Generator {
    /// Goes on to the next state, and gives its upper 31 bits.
    pub(crate) fn draw(&mut self) -> u64
        ensures state { self.new.state ≡ next_state self.old.state }
        ensures upper { result ≡ next_state self.old.state / 2 ^ 33 }
    {
        self.state = self.state.wrapping_mul(MULTIPLIER).wrapping_add(INCREMENT);
        self.state >> 33
    }
}
