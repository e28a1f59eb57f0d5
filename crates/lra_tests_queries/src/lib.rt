//! Tests of the questions about closed polyhedra, each by a table worked out by hand.
//!
//! They stand apart from what they try, since a crate that has tests in it is proved twice.
#![tactic(auto)]

#[cfg(test)]
mod boxes;
#[cfg(test)]
mod contexts;
#[cfg(test)]
mod minima;
#[cfg(test)]
mod moves;
#[cfg(test)]
mod multiples;
#[cfg(test)]
mod relations;
#[cfg(test)]
mod shapes;
#[cfg(test)]
mod wholes;
