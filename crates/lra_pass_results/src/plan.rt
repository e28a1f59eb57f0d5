//! How a program is passed.

ghost use Rattle.std.specs.Prelude.{◌≡◌, zero, option_map, IfOk};
ghost use Rattle.lra_pass_results.specs.Crates.lra_analysis_spec.Plan.{constants_in, mode_at, plan_of};

use lra_options::Options;
use lra_transfer::Mode;
use std::alloc::{AllocError, Global};
use std::marker::Model;

/// What an iteration is given: the options of an analysis, and the constants of the program, which are the thresholds
/// of its loops if the options ask for such.
pub struct Plan {
    options: Options,
    constants: Vec<i64>,
}

impl Drop for Plan {
    fn drop(self) {
        let Plan {
            options: _,
            constants: _,
        } = self;
    }
}

impl Model for Plan {
    ghost use Rattle.lra_pass_results.specs.Crates.lra_analysis_spec.Plan.{Plan, plan_of};

    ghost Value = { Plan };

    ghost view = { λ p. plan_of p.options p.constants.items };
}

impl Plan {
    /// Under these options, of a program with these constants.
    pub fn of(alloc: Global, options: Options, constants: &[i64]) -> Result<Plan, AllocError>
        ensures { IfOk result (λ plan. plan ≡ plan_of options constants.now) }
    {
        let constants = Vec::from_slice(alloc, constants)?;
        Ok(Plan { options, constants })
    }

    /// The most parts of a value.
    pub fn parts(&self) -> u32
        ensures { result ≡ self.now.parts }
    {
        self.options.parts
    }

    /// The rounds in which a loop's head grows by joins, before it is widened.
    pub fn delay(&self) -> u32
        ensures { result ≡ self.now.delay }
    {
        self.options.delay
    }

    /// How often it is narrowed once it has stopped growing.
    pub fn narrow(&self) -> u32
        ensures { result ≡ self.now.narrow }
    {
        self.options.narrow
    }

    /// How it grows once it doesn't join any more.
    pub fn mode(&self) -> Mode
        ensures { result ≡ mode_at self.now.widening zero }
    {
        if self.options.thresholds {
            Mode::Tightest
        } else if self.options.limited {
            Mode::Limited
        } else {
            Mode::Widen
        }
    }

    /// The program's constants, if loops are limited by thresholds.
    pub fn thresholds(&self) -> Option<&[i64]>
        ensures { option_map (λ s. s.now) result ≡ constants_in self.now.widening }
    {
        if self.options.thresholds {
            Some(self.constants.as_slice())
        } else {
            None
        }
    }
}
