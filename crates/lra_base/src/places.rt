//! How many bytes a source or a script may have, and where they stand.

ghost use Rattle.std.specs.Prelude.{◌≡◌, ◌+◌, ◌<◌, ◌^◌, length};
ghost use Rattle.lra_base.specs.Places.{place_after};

use crate::refusals::Place;

/// The most bytes that a source or a script may have.
pub const GREATEST_LENGTH: usize = 65_536;

/// The place of the byte after these, which begin a source or a script.
pub fn place_after(bytes: &[u8]) -> Place
    requires { length bytes.now + 1 < 2 ^ 32 }
    ensures { result ≡ place_after bytes.now }
{
    let mut line = 1;
    let mut column = 1;
    for byte in bytes {
        if *byte == b'\n' {
            line += 1;
            column = 1;
        } else {
            column += 1;
        }
    }
    Place { line, column }
}
