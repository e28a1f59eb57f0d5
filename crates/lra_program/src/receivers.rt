//! What a value meets on its way to a variable or an element.

ghost use Rattle.std.specs.Prelude.{◌≡◌};
ghost use Rattle.lra_program.specs.Receivers.{with_conversion, converts, is_shorter, shortens, converts_to};
ghost use Rattle.lra_program.specs.Receivers.{variable_at, waiting_in, nobody, result_receiver};

use crate::arrays::Array;
use lra_base::{NumberType, Place};

/// The types on a way, as far as they matter.
#[derive(Clone, Copy, PartialEq, Eq, Debug)]
pub enum ConversionChain {
    /// All have 64 bits, or there is none.
    Wide,
    /// One has 32 bits, and none before it 64.
    Short,
    /// One of 32 bits comes after one of 64.
    Shortened,
}

impl ConversionChain {
    /// The way with a further type before those of this one.
    pub fn with_conversion(self, number_type: NumberType) -> Self
        ensures { result ≡ with_conversion number_type self }
    {
        match number_type {
            NumberType::Int => match self {
                ConversionChain::Wide | ConversionChain::Short => ConversionChain::Short,
                ConversionChain::Shortened => ConversionChain::Shortened,
            },
            NumberType::Long => match self {
                ConversionChain::Wide => ConversionChain::Wide,
                ConversionChain::Short | ConversionChain::Shortened => ConversionChain::Shortened,
            },
        }
    }

    /// Whether a value of this type is converted on it from 64 bits to 32.
    pub fn converts(self, number_type: NumberType) -> bool
        ensures { result ≡ converts number_type self }
    {
        match self {
            ConversionChain::Wide => false,
            ConversionChain::Short => match number_type {
                NumberType::Int => false,
                NumberType::Long => true,
            },
            ConversionChain::Shortened => true,
        }
    }
}

/// Where a number is kept.
#[derive(Clone, Copy, PartialEq, Eq, Debug)]
pub enum Cell {
    /// The variable at this place in the store.
    Variable(usize),
    /// An element of the array that is declared there: the one whose index was the last to begin to wait.
    Waiting(Place),
}

/// A variable or an element, with its type.
#[derive(Clone, Copy, PartialEq, Eq, Debug)]
pub struct Target {
    pub cell: Cell,
    pub number_type: NumberType,
}

/// What gets a value, if anything does, and the way there.
#[derive(Clone, Copy, PartialEq, Eq, Debug)]
pub struct Receiver {
    pub target: Option<Target>,
    pub conversions: ConversionChain,
}

impl Receiver {
    /// The variable at a place.
    pub fn variable(place: usize, number_type: NumberType) -> Self
        ensures { result ≡ variable_at place number_type }
    {
        Receiver {
            target: Some(Target {
                cell: Cell::Variable(place),
                number_type,
            }),
            conversions: ConversionChain::Wide.with_conversion(number_type),
        }
    }

    /// The array's element whose index waits.
    pub fn waiting(array: Array) -> Self
        ensures { result ≡ waiting_in array }
    {
        Receiver {
            target: Some(Target {
                cell: Cell::Waiting(array.declared),
                number_type: array.number_type,
            }),
            conversions: ConversionChain::Wide.with_conversion(array.number_type),
        }
    }

    /// Of a result that nothing uses.
    pub fn nobody() -> Self
        ensures { result ≡ nobody }
    {
        Receiver {
            target: None,
            conversions: ConversionChain::Wide,
        }
    }

    /// Whether a value of this type is converted from 64 bits to 32 on its way here.
    pub fn converts(self, number_type: NumberType) -> bool
        ensures { result ≡ converts_to number_type self }
    {
        self.conversions.converts(number_type) || self.shortens(number_type)
    }

    /// What a function with this result gives it to, called for this receiver.
    pub fn result_receiver(self, result_type: Option<NumberType>) -> Self
        ensures { result ≡ result_receiver result_type self }
    {
        match result_type {
            Some(number_type) => Receiver {
                target: self.target,
                conversions: self.conversions.with_conversion(number_type),
            },
            None => self,
        }
    }

    fn shortens(self, number_type: NumberType) -> bool
        ensures { result ≡ shortens number_type self.target }
    {
        match self.target {
            Some(target) => is_shorter(number_type, target.number_type),
            None => false,
        }
    }
}

fn is_shorter(from: NumberType, to: NumberType) -> bool
    ensures { result ≡ is_shorter from to }
{
    match from {
        NumberType::Int => false,
        NumberType::Long => match to {
            NumberType::Int => true,
            NumberType::Long => false,
        },
    }
}
