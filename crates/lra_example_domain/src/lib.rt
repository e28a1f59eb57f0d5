//! A small domain whose inclusion, join and heads exceed a limit: an instance of each answer of the trait.
#![tactic(auto)]

pub mod bounds;
pub mod example;

pub use example::ExampleDomain;
