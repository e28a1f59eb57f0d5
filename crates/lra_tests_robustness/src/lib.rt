//! Tests of hostile use: devices that fail at each call in turn, limits from both sides, and sources and scripts that
//! would grow without end.
//!
//! They stand apart from the other tests of whole runs so that neither crate's proof is long.
#![tactic(auto)]

#[cfg(test)]
mod calls;
#[cfg(test)]
mod devices;
#[cfg(test)]
mod doublings;
#[cfg(test)]
mod hulls;
#[cfg(test)]
mod limits;
#[cfg(test)]
mod nests;
#[cfg(test)]
mod pieces;
