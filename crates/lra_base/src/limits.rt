//! How many variables there may be at once, and how many elements an array may have.

ghost use Rattle.std.specs.Prelude.{◌≡◌};
ghost use Rattle.lra_base.specs.Limits.{is_length};

/// The most variables that may live at a point of a program, and the most dimensions of a script's sets.
pub const GREATEST_LIVE: usize = 32;

/// The most elements that an array may have.
pub const GREATEST_ELEMENTS: u32 = 1_048_576;

/// Whether an array may have so many elements.
pub fn is_length(count: u64) -> bool
    ensures { result ≡ is_length count }
{
    1 <= count && count <= u64::from(GREATEST_ELEMENTS)
}
