//! The options of an analysis: a row for each, from which words, reports and JSON come; the abstract domains by name.
#![tactic(auto)]

mod options;

pub use options::{
    BEST_OPTIONS, DEFAULT_OPTIONS, DOMAINS, Domain, FLAG_OPTIONS, FlagOption, NUMBER_OPTIONS,
    NumberOption, Options, best_options, default_options,
};
