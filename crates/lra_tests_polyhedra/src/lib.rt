//! Tests of closed polyhedra, of their images, their changes of dimensions and their widenings: each public call that
//! allocates, and values from outside.
//!
//! They stand apart from what they try, since a crate that has tests in it is proved twice.
#![tactic(auto)]

#[cfg(test)]
mod door;
#[cfg(test)]
mod images;
#[cfg(test)]
mod maps;
#[cfg(test)]
mod poly;
#[cfg(test)]
mod saturation;
#[cfg(test)]
mod shapes;
#[cfg(test)]
mod widen;
