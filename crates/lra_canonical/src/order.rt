//! The orders of lists that are shown.

ghost use Rattle.std.specs.{List.Sorted.IsPermutation, List.Sorted.IsSorted, Prelude.◌≡◌, Prelude.OnOk, Prelude.OnErr};
ghost use Rattle.lra_canonical.specs.Crates.lra_linear_spec.RowOrder.{inequality_cmp};
ghost use Rattle.lra_canonical.specs.{MarkedRows.rows_in, Ordered.cmp_by, Ordered.pivot_cmp, Ordered.IsOneOrder};

use lra_bits::BitRow;
use lra_row::Row;
use std::alloc::AllocError;
use std::cmp::Ordering;

/// What the rows of a list are, which decides their order.
#[derive(Clone, Copy, Debug, PartialEq, Eq)]
pub enum Order {
    /// Inequalities: by the first column other than 0 from 1 up, then the greater one first.
    Inequalities,
    /// Points alone, or rays alone: by their columns, column 0 last. A list of both has its points first.
    Generators,
    /// Equalities or lines: by pivot, column 0 last.
    Pivots,
}

fn compare_pivots(left: &Row, right: &Row) -> Ordering
    ensures { result ≡ pivot_cmp left.now right.now }
{
    let (first, second) = (left.pivot(), right.pivot());
    (first == 0).cmp(&(second == 0)).then(first.cmp(&second))
}

fn compare_inequalities(left: &Row, right: &Row) -> Ordering
    ensures { result ≡ inequality_cmp left.now right.now }
{
    let order = left.pivot().cmp(&right.pivot());
    if order != Ordering::Equal {
        return order;
    }
    right.compare(left)
}

fn compare_by(order: Order, left: &Row, right: &Row) -> Ordering
    ensures { result ≡ cmp_by order left.now right.now }
{
    match order {
        Order::Inequalities => compare_inequalities(left, right),
        Order::Generators => left.compare(right),
        Order::Pivots => compare_pivots(left, right),
    }
}

/// Puts the rows in order. Lists with the same rows, each as often, become equal, with `Pivots` if the pivots
/// differ. Running out of memory leaves the list as it was.
pub fn canonical_order(rows: &mut Vec<Row>, order: Order) -> Result<(), AllocError>
    ensures same { IsPermutation rows.old.items rows.new.items }
    ensures sorted { OnOk result (IsSorted (cmp_by order) rows.new.items) }
    ensures one { OnOk result (IsOneOrder order rows.old.items rows.new.items) }
    ensures unchanged { OnErr result (rows.new.items ≡ rows.old.items) }
{
    rows.sort_by(|left, right| compare_by(order, left, right))?;
    Ok(())
}

/// A row, and truth values that go with it.
#[derive(Drop)]
pub struct Marked {
    pub row: Row,
    pub bits: BitRow,
}

/// Puts marked rows in the order of their rows; what goes with each goes with it. Running out of memory leaves the list
/// as it was.
pub fn order_marked(marked: &mut Vec<Marked>, order: Order) -> Result<(), AllocError>
    ensures same { IsPermutation marked.old.items marked.new.items }
    ensures sorted { OnOk result (IsSorted (cmp_by order) (rows_in marked.new.items)) }
    ensures unchanged { OnErr result (marked.new.items ≡ marked.old.items) }
{
    marked.sort_by(|left, right| compare_by(order, &left.row, &right.row))?;
    Ok(())
}
