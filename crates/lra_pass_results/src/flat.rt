//! Trees that are passed where they stand: those with no tree in them, and rows of such. Others don't act in them, so
//! that their pass is the same among any.

ghost use Rattle.lra_pass_results.specs.Crates.lra_domain.Interference.{no_interference};
ghost use Rattle.lra_pass_results.specs.Crates.{lra_analysis_spec.LiveLimit.most_live, lra_analysis_spec.Plan.Plan};
ghost use Rattle.std.specs.Prelude.{◌≡◌, ◌≤◌, true, map, IfSome, OnOk};
ghost use Rattle.lra_operations.specs.TreeViews.{node_view, row};
ghost use Rattle.lra_pass_results.specs.Flat.{flat_view, AreLeaves, Follows, HasLeaves, IsLeaf};
ghost use Rattle.lra_pass_results.specs.{Dimensions.TreeFits, TreeForms.leaf_view};

use crate::leaves::pass_on;
use crate::outcome::PassOutcome;
use crate::plan::Plan;
use crate::tree_forms::{Leaf, Row, TreeForm};
use lra_operations::Node;
use lra_transfer::Domain;
use std::alloc::{AllocError, Global};

/// A tree with no tree in it, or a row of such.
#[derive(Clone, Copy)]
pub enum Flat<'a> {
    Leaf(Leaf<'a>),
    Row(Row<'a>),
}

/// Whether no tree stands in the tree.
fn is_leaf(plan: &Plan, node: &Node) -> bool
    ensures { result ≡ true → IsLeaf node.now }
{
    match TreeForm::of(plan, node) {
        TreeForm::Leaf(_) => true,
        _ => false,
    }
}

/// Whether no tree stands in any of the row's trees.
fn has_leaves(the_row: Row<'_>) -> bool
    ensures { result ≡ true → HasLeaves the_row.entry }
{
    let Row { plan, trees, last } = the_row;
    let mut left = trees;
    'trees: while let Some((node, behind)) = left.split_first() {
        if !is_leaf(plan, node) {
            return false;
        }
        left = behind;
    }
    is_leaf(plan, last)
}

/// The tree, in which none stands.
fn leaf_of<'a>(plan: &'a Plan, node: &'a Node) -> Leaf<'a>
    requires { IsLeaf node.now }
    ensures { node_view node.now ≡ leaf_view result }
{
    match TreeForm::of(plan, node) {
        TreeForm::Leaf(leaf) => leaf,
        TreeForm::Probe(_, _) => unreachable!(),
        TreeForm::Row(_) => unreachable!(),
        TreeForm::Choice(_) => unreachable!(),
        TreeForm::Loop(_) => unreachable!(),
        TreeForm::Catch(_) => unreachable!(),
        TreeForm::Select(_) => unreachable!(),
    }
}

/// What the pass of a row of trees with none in them finds comes after what was found before it.
fn pass_along<D: Domain>(
    alloc: Global,
    plan: &Plan,
    the_row: Row<'_>,
    so_far: &mut PassOutcome<D>,
) -> Result<(), AllocError>
    requires parts { 1 ≤ plan.now.parts }
    requires few { D.abstraction.dims so_far.old.normal ≤ most_live }
    requires fits { TreeFits (row (map node_view the_row.trees.now) (node_view the_row.last.now))
        (D.abstraction.dims so_far.old.normal) }
    requires leaves { HasLeaves the_row }
    ensures { OnOk result (Follows no_interference D.abstraction plan.now
        (row (map node_view the_row.entry.trees.now) (node_view the_row.entry.last.now)) so_far.old so_far.new) }
{
    let mut left = the_row.trees;
    'leaves: while let Some((node, behind)) = left.split_first() {
        let leaf = leaf_of(plan, node);
        pass_on(alloc, plan, &leaf, so_far)?;
        left = behind;
    }
    let last = leaf_of(plan, the_row.last);
    pass_on(alloc, plan, &last, so_far)?;
    Ok(())
}

impl<'a> Flat<'a> {
    /// The tree, if it is passed where it stands.
    pub fn of(plan: &'a Plan, node: &'a Node) -> Option<Flat<'a>>
        ensures { IfSome result (λ x. (node_view node.now ≡ flat_view x) × AreLeaves x) }
    {
        match TreeForm::of(plan, node) {
            TreeForm::Leaf(leaf) => Some(Flat::Leaf(leaf)),
            TreeForm::Row(the_row) if has_leaves(the_row) => Some(Flat::Row(the_row)),
            _ => None,
        }
    }

    /// What its pass finds comes after what was found before it.
    pub fn pass_on<D: Domain>(
        self,
        alloc: Global,
        plan: &Plan,
        so_far: &mut PassOutcome<D>,
    ) -> Result<(), AllocError>
        requires parts { 1 ≤ plan.now.parts }
        requires few { D.abstraction.dims so_far.old.normal ≤ most_live }
        requires fits { TreeFits (flat_view self) (D.abstraction.dims so_far.old.normal) }
        requires leaves { AreLeaves self }
        ensures { OnOk result (Follows no_interference D.abstraction plan.now (flat_view self.entry)
            so_far.old so_far.new) }
    {
        match self {
            Flat::Leaf(leaf) => pass_on(alloc, plan, &leaf, so_far),
            Flat::Row(the_row) => pass_along(alloc, plan, the_row, so_far),
        }
    }
}
