//! How a source is analysed.

ghost use Rattle.std.specs.Prelude.{◌≡◌, Some};
ghost use Rattle.lra_options.specs.Domains.{domain_name, shows_generators, supports_thresholds};
ghost use Rattle.lra_options.specs.OptionRows.{number_row, number_value, set_number, is_number_always_reported};
ghost use Rattle.lra_options.specs.OptionRows.{is_number_reported, flag_row, flag_value, set_flag};
ghost use Rattle.lra_options.specs.OptionRows as rows;

/// The abstract domain of an analysis.
#[derive(Clone, Copy, PartialEq, Eq, Debug)]
pub enum Domain {
    /// Closed convex polyhedra.
    Poly,
    /// Boxes: an interval for each variable.
    Box,
    /// Integer octagons.
    Oct,
}

/// The domains, in the order in which words offer them.
pub const DOMAINS: [Domain; 3] = [Domain::Poly, Domain::Box, Domain::Oct];

impl Domain {
    /// The name on the command line and in reports.
    pub fn name(self) -> &'static str
        ensures { result.now ≡ domain_name self }
    {
        match self {
            Domain::Poly => "poly",
            Domain::Box => "box",
            Domain::Oct => "oct",
        }
    }

    /// Whether a part is given by its generators too.
    pub fn shows_generators(self) -> bool
        ensures { result ≡ shows_generators self }
    {
        match self {
            Domain::Poly => true,
            Domain::Box => false,
            Domain::Oct => false,
        }
    }

    /// Whether its heads can stop at rows that are given.
    pub fn supports_thresholds(self) -> bool
        ensures { result ≡ supports_thresholds self }
    {
        match self {
            Domain::Poly => true,
            Domain::Box => false,
            Domain::Oct => false,
        }
    }
}

/// The options of an analysis.
#[derive(Clone, Copy, PartialEq, Eq, Debug)]
pub struct Options {
    /// The abstract domain.
    pub domain: Domain,
    /// The most parts of a state, 1 to 16.
    pub parts: u32,
    /// The rounds in which a loop's head grows by joins before it is widened, 0 to 8.
    pub delay: u32,
    /// How often a loop's head is narrowed once it has stopped growing, 0 to 4.
    pub narrow: u32,
    /// Whether the widening is limited by the program's own conditions.
    pub limited: bool,
    /// Whether it is limited by thresholds: by the conditions of a loop and in it, and by the program's constants.
    pub thresholds: bool,
    /// Whether it is reported which operations fit their types.
    pub fits: bool,
}

impl Options {
    /// Whether they can be given together.
    pub fn are_compatible(self) -> bool
        ensures { result ≡ rows.are_compatible self }
    {
        !self.thresholds || (!self.limited && self.domain.supports_thresholds())
    }
}

/// An option that is a number.
#[derive(Clone, Copy, PartialEq, Eq, Debug)]
pub enum NumberOption {
    /// The most parts of a state.
    Parts,
    /// The rounds of joins before a loop's head is widened.
    Delay,
    /// How often a loop's head is narrowed.
    Narrow,
}

/// The options with a number, in the order of a report's first line.
pub const NUMBER_OPTIONS: [NumberOption; 3] = [
    NumberOption::Parts,
    NumberOption::Delay,
    NumberOption::Narrow,
];

impl NumberOption {
    /// The name on the command line and in reports.
    pub fn name(self) -> &'static str
        ensures { result.now ≡ (number_row self).name }
    {
        match self {
            NumberOption::Parts => "parts",
            NumberOption::Delay => "delay",
            NumberOption::Narrow => "narrow",
        }
    }

    /// The least value that words may give it.
    pub fn least(self) -> u32
        ensures { result ≡ (number_row self).least }
    {
        match self {
            NumberOption::Parts => 1,
            NumberOption::Delay => 0,
            NumberOption::Narrow => 0,
        }
    }

    /// The greatest.
    pub fn greatest(self) -> u32
        ensures { result ≡ (number_row self).greatest }
    {
        match self {
            NumberOption::Parts => 16,
            NumberOption::Delay => 8,
            NumberOption::Narrow => 4,
        }
    }

    /// The default, as a text.
    pub fn default_text(self) -> &'static str
        ensures { (number_row self).default ≡ Some result.now }
    {
        match self {
            NumberOption::Parts => "1",
            NumberOption::Delay => "1",
            NumberOption::Narrow => "1",
        }
    }

    /// The value that these options give it.
    pub fn value(self, options: Options) -> u32
        ensures { result ≡ number_value self options }
    {
        match self {
            NumberOption::Parts => options.parts,
            NumberOption::Delay => options.delay,
            NumberOption::Narrow => options.narrow,
        }
    }

    /// The options with this option set to the value.
    pub fn set(self, value: u32, options: Options) -> Options
        ensures { result ≡ set_number self value options }
    {
        match self {
            NumberOption::Parts => Options {
                parts: value,
                ..options
            },
            NumberOption::Delay => Options {
                delay: value,
                ..options
            },
            NumberOption::Narrow => Options {
                narrow: value,
                ..options
            },
        }
    }

    /// Whether a report shows it also if it is its default.
    fn is_always_reported(self) -> bool
        ensures { result ≡ is_number_always_reported self }
    {
        match self {
            NumberOption::Parts => true,
            NumberOption::Delay => true,
            NumberOption::Narrow => true,
        }
    }

    /// Whether a report under these options shows it.
    pub fn is_reported(self, options: Options) -> bool
        ensures { result ≡ is_number_reported self options }
    {
        self.is_always_reported() || self.value(options) != self.value(default_options())
    }
}

/// An option that is a flag.
#[derive(Clone, Copy, PartialEq, Eq, Debug)]
pub enum FlagOption {
    /// Whether the widening is limited by the program's own conditions.
    Limited,
    /// Whether loops grow by the tightest of the program's own constants and conditions.
    Thresholds,
    /// Whether it is reported which operations fit their types.
    Fits,
}

/// The options that are flags, in the order of a report's first line, after the numbers.
pub const FLAG_OPTIONS: [FlagOption; 3] = [
    FlagOption::Limited,
    FlagOption::Thresholds,
    FlagOption::Fits,
];

impl FlagOption {
    /// The name on the command line and in reports.
    pub fn name(self) -> &'static str
        ensures { result.now ≡ (flag_row self).name }
    {
        match self {
            FlagOption::Limited => "limited",
            FlagOption::Thresholds => "thresholds",
            FlagOption::Fits => "fits",
        }
    }

    /// Whether a report shows it also if it is off.
    fn is_always_reported(self) -> bool
        ensures { result ≡ (flag_row self).is_always_reported }
    {
        match self {
            FlagOption::Limited => true,
            FlagOption::Thresholds => false,
            FlagOption::Fits => false,
        }
    }

    /// Whether it stands beside `--best`, since it changes no state.
    pub fn stands_beside_best(self) -> bool
        ensures { result ≡ (flag_row self).stands_beside_best }
    {
        match self {
            FlagOption::Limited => false,
            FlagOption::Thresholds => false,
            FlagOption::Fits => true,
        }
    }

    /// The value that these options give it.
    pub fn value(self, options: Options) -> bool
        ensures { result ≡ flag_value self options }
    {
        match self {
            FlagOption::Limited => options.limited,
            FlagOption::Thresholds => options.thresholds,
            FlagOption::Fits => options.fits,
        }
    }

    /// The options with this option set to the value.
    pub fn set(self, value: bool, options: Options) -> Options
        ensures { result ≡ set_flag self value options }
    {
        match self {
            FlagOption::Limited => Options {
                limited: value,
                ..options
            },
            FlagOption::Thresholds => Options {
                thresholds: value,
                ..options
            },
            FlagOption::Fits => Options {
                fits: value,
                ..options
            },
        }
    }

    /// Whether a report under these options shows it.
    pub fn is_reported(self, options: Options) -> bool
        ensures { result ≡ rows.is_reported self options }
    {
        self.is_always_reported() || self.value(options)
    }
}

/// The options of an analysis if words name none: polyhedra of one part, delay and narrowing 1, not limited.
pub const DEFAULT_OPTIONS: Options = Options {
    domain: Domain::Poly,
    parts: 1,
    delay: 1,
    narrow: 1,
    limited: false,
    thresholds: false,
    fits: false,
};

/// The options for which one word stands, for whoever doesn't want to choose: polyhedra of up to four parts, limited by
/// thresholds.
pub const BEST_OPTIONS: Options = Options {
    domain: Domain::Poly,
    parts: 4,
    delay: 1,
    narrow: 1,
    limited: false,
    thresholds: true,
    fits: false,
};

/// The default options; each number is the one that `default_text` writes.
pub fn default_options() -> Options
    ensures { result ≡ rows.default_options }
{
    DEFAULT_OPTIONS
}

/// The options for which the word `--best` stands.
pub fn best_options() -> Options
    ensures { result ≡ rows.best_options }
{
    BEST_OPTIONS
}
