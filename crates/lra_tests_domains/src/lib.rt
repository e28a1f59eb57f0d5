//! Tests of domains, which are boxes, octagons, polyhedra and sets of parts: each public call that allocates, and
//! values from outside.
//!
//! They stand apart from what they try, since a crate that has tests in it is proved twice.
#![tactic(auto)]

#[cfg(test)]
mod bounds;
#[cfg(test)]
mod boxes;
#[cfg(test)]
mod gauge;
#[cfg(test)]
mod oct;
#[cfg(test)]
mod polydom;
#[cfg(test)]
mod sets;
