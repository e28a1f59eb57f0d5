//! The types of numbers.

ghost use Rattle.std.specs.Prelude.{◌≡◌};
ghost use Rattle.lra_base.specs.NumberTypes.{fits, wider};

/// The type of a number: of a literal, of a variable, a parameter or a function's result.
#[derive(Clone, Copy, PartialEq, Eq, Debug)]
pub enum NumberType {
    /// 32 bits.
    Int,
    /// 64 bits.
    Long,
}

impl NumberType {
    /// Whether the number is one of this type.
    pub fn fits(self, number: i128) -> bool
        ensures { result ≡ fits self number }
    {
        match self {
            NumberType::Int => -2147483648 <= number && number <= 2147483647,
            NumberType::Long => -9223372036854775808 <= number && number <= 9223372036854775807,
        }
    }

    /// The type in which an operation on a value of this type and one of the other is done.
    pub fn wider(self, other: Self) -> Self
        ensures { result ≡ wider self other }
    {
        match self {
            NumberType::Int => other,
            NumberType::Long => NumberType::Long,
        }
    }
}
