//! The points of a program in their order, and the limits on them.

ghost use Rattle.std.specs.Prelude.{◌≡◌, ◌≤◌, ◌∷◌, ◌++◌, [], length, map, Ok, IfOk};
ghost use Rattle.lra_program.specs.Sites.{comes};
ghost use Rattle.lra_operations.specs.TreeViews.{site_view};
ghost use Rattle.lra_inline_steps.specs.Crates.lra_resolution_spec.Refuse.{greatest_live};
ghost use Rattle.lra_inline_steps.specs.Limits.{add_points, passed, stopped, OnLimit};

use lra_operations::{Node, Path, Site};
use lra_program::GREATEST_LIVE;
use std::alloc::{AllocError, Global};

/// The most points that a program may have.
pub const GREATEST_POINTS: usize = 2048;
/// The most calls on a path.
pub const GREATEST_CALLS: usize = 32;

/// The limit that a program passes, and the label of the point or call that first passes it.
#[derive(Clone, Copy, PartialEq, Eq, Debug)]
pub enum Limit {
    /// More than `GREATEST_LIVE` variables live at the point.
    Variables(usize),
    /// The point is one more than 2048.
    Points(usize),
    /// The call is one more than 32 on its path.
    Calls(usize),
}

/// Why a program has no graph.
#[derive(Clone, Copy, PartialEq, Eq, Debug)]
pub enum InlineError {
    Passed(Limit),
    Memory,
}

impl From<AllocError> for InlineError {
    ghost use Rattle.lra_inline_steps.specs.declared.points.InlineError.TheVariants.{Memory};

    ghost from_gives = { λ _ e. e ≡ Memory };

    fn from(_: AllocError) -> Self {
        InlineError::Memory
    }
}

/// What is made of its parts, if only the memory may fail.
pub fn finish(tree: Result<Node, AllocError>) -> Result<Node, InlineError>
    ensures tree { IfOk result (λ g. tree ≡ Ok g) }
    ensures memory { OnLimit result (λ _. ⊥) }
{
    Ok(tree?)
}

fn add_site(sites: &mut Vec<Site>, site: Site) -> Result<(), AllocError>
    ensures { IfOk result (λ _. map site_view sites.new.items
        ≡ map site_view sites.old.items ++ site_view site ∷ []) }
{
    sites.push(site)?;
    Ok(())
}

/// Adds a point after the others, and gives its number; or reports the limit that it passes.
pub fn add_point(
    alloc: Global,
    path: &Path,
    label: usize,
    live: usize,
    asserts: bool,
    sites: &mut Vec<Site>,
) -> Result<usize, InlineError>
    ensures number { IfOk result (λ q. q ≡ length (map site_view sites.old.items)) }
    ensures walked { IfOk result (λ _. add_points (map site_view sites.old.items)
        (comes (record { path = path.now; label = label; live = live; asserts = asserts }) ∷ [])
        ≡ passed (map site_view sites.new.items)) }
    ensures few { IfOk result (λ _. live ≤ greatest_live) }
    ensures limit { OnLimit result (λ x. add_points (map site_view sites.old.items)
        (comes (record { path = path.now; label = label; live = live; asserts = asserts }) ∷ [])
        ≡ stopped x) }
{
    let number = sites.len();
    if live > GREATEST_LIVE {
        return Err(InlineError::Passed(Limit::Variables(label)));
    }
    if number >= GREATEST_POINTS {
        return Err(InlineError::Passed(Limit::Points(label)));
    }
    let path = path.copy(alloc)?;
    add_site(
        sites,
        Site {
            path,
            label,
            live,
            asserts,
        },
    )?;
    Ok(number)
}
