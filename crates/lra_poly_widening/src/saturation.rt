//! Which generators rows saturate, as truth values in words.

ghost use Rattle.std.specs.List.{All, list_any};
ghost use Rattle.std.specs.Prelude.{◌≡◌, ◌||◌, IfOk, length, map};
ghost use Rattle.lra_poly_widening.specs.Crates.{lra_bits.TruthValues.are_true, lra_duality.Saturations.saturated};
ghost use Rattle.lra_systems.specs.LinearSystems.{constraints, generators};
ghost use Rattle.lra_poly_widening.specs.Saturated.{same_values};

use lra_poly::{BitRow, mark_saturated};
use lra_systems::{ConSys, GenSys};
use std::alloc::{AllocError, Global};

/// Which of the generators each of the constraints saturates.
pub fn all_saturated(
    alloc: Global,
    given: &ConSys,
    list: &GenSys,
) -> Result<Vec<BitRow>, AllocError>
    requires { given.now.dims ≡ list.now.dims }
    ensures { IfOk result (λ classes. classes.items ≡
        map (λ s. saturated (generators list.now) s.row) (constraints given.now)) }
{
    let (rows, _kinds) = (given.rows(), given.kinds());
    let mut classes = Vec::new(alloc);
    for place in 0..rows.len() {
        classes.push(mark_saturated(alloc, &rows[place], list)?)?;
    }
    Ok(classes)
}

// Whether the two lists, of one width, are the same.
fn are_same(bits: &BitRow, other: &BitRow) -> bool
    requires { length bits.now ≡ length other.now }
    ensures { result ≡ same_values bits.now other.now }
{
    bits.subset(other) && other.subset(bits)
}

// Whether the list is one of these, of its width.
fn is_among(bits: &BitRow, classes: &[BitRow]) -> bool
    requires { All (λ class. length bits.now ≡ length class) classes.now }
    ensures { result ≡ list_any (same_values bits.now) classes.now }
{
    for class in classes {
        if are_same(bits, class) {
            return true;
        }
    }
    false
}

/// Whether all values are true, or the list is one of these.
pub fn is_full_or_among(bits: &BitRow, classes: &[BitRow]) -> bool
    requires { All (λ class. length bits.now ≡ length class) classes.now }
    ensures { result ≡ (are_true bits.now || list_any (same_values bits.now) classes.now) }
{
    bits.are_true() || is_among(bits, classes)
}
