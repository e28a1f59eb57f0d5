//! Where a byte stands.

ghost use Rattle.std.specs.Prelude.{◌≡◌, ◌+◌, ◌<◌, ◌^◌, length};
ghost use Rattle.lra_base.specs.Places.{place_from};
ghost use Rattle.lra_lex.specs.Places.{fresh_after_bytes};

use crate::bytes::is_space_or_tab;
use lra_base::Place;

/// A byte's place, and whether only spaces and tabs stand before it on its line.
#[derive(Clone, Copy)]
pub struct Spot {
    pub place: Place,
    pub fresh: bool,
}

impl Spot {
    /// The spot after the bytes.
    pub fn advance(self, bytes: &[u8]) -> Spot
        requires lines { self.place.line + length bytes.now < 2 ^ 32 }
        requires columns { self.place.column + length bytes.now < 2 ^ 32 }
        ensures place { result.place ≡ place_from self.place bytes.now }
        ensures fresh { result.fresh ≡ fresh_after_bytes self.fresh bytes.now }
    {
        let mut line = self.place.line;
        let mut column = self.place.column;
        let mut fresh = self.fresh;
        for byte in bytes {
            if *byte == b'\n' {
                line += 1;
                column = 1;
                fresh = true;
            } else {
                column += 1;
                fresh = is_space_or_tab(*byte) && fresh;
            }
        }
        Spot {
            place: Place { line, column },
            fresh,
        }
    }
}
