//! The intervals of all threads.

ghost use Rattle.std.specs.Prelude.{◌≡◌, ◌↔◌, ◌<◌, length, IfOk, IsTrue};
ghost use Rattle.lra_threads_fixpoint.specs.Interference.{joined_rows, interference_on};
ghost use Rattle.lra_threads_fixpoint.specs.Intervals.{empty_table, grown_row, grown_table, growth_of, updated};
ghost use Rattle.lra_threads_fixpoint.specs.Intervals.{TableWithin};

use crate::growth::Growth;
use crate::intervals::Intervals;
use std::alloc::{AllocError, Global};

/// How many rounds join.
pub const JOINING_ROUNDS: usize = 2;

/// No interval for any thread and global.
pub fn begin_table(
    alloc: Global,
    threads: usize,
    globals: usize,
) -> Result<Vec<Intervals>, AllocError>
    ensures { IfOk result (λ table. table.items ≡ empty_table threads globals) }
{
    let mut table = Vec::new(alloc);
    'threads: for _thread in 0..threads {
        table.push(Intervals::none(alloc, globals)?)?;
    }
    Ok(table)
}

/// The intervals of these threads are joined.
fn join_rows(told: &mut Intervals, rows: &[Intervals])
    ensures { told.new ≡ joined_rows told.old rows.now }
{
    'threads: for row in rows {
        told.grow(Growth::Join, row);
    }
}

/// What thread `k` is reported: of each global the join of the other threads' intervals.
pub fn find_interference(
    alloc: Global,
    globals: usize,
    k: usize,
    table: &[Intervals],
) -> Result<Intervals, AllocError>
    requires { k < length table.now }
    ensures { IfOk result (λ told. told ≡ interference_on globals k table.now) }
{
    let mut told = Intervals::none(alloc, globals)?;
    let (before, _) = table.split_at(k);
    join_rows(&mut told, before);
    let (_, behind) = table.split_at(k + 1);
    join_rows(&mut told, behind);
    Ok(told)
}

/// Whether all that is written lies in the intervals of the table.
pub fn is_fixpoint(written: &[Intervals], table: &[Intervals]) -> bool
    ensures { IsTrue result ↔ TableWithin written.now table.now }
{
    let mut ours = written;
    let mut theirs = table;
    while let Some((one, ours_left)) = ours.split_first() {
        let Some((two, theirs_left)) = theirs.split_first() else {
            return false;
        };
        if !one.within(two) {
            return false;
        }
        ours = ours_left;
        theirs = theirs_left;
    }
    true
}

/// How intervals grow while so many rounds of joining are left.
pub fn growth_with(left: usize) -> Growth
    ensures { result ≡ growth_of left }
{
    if left > 0 {
        Growth::Join
    } else {
        Growth::Widen
    }
}

/// What one thread writes comes in, if the table has that thread.
fn grow_row(table: &mut Vec<Intervals>, k: usize, growth: Growth, written: &Intervals)
    ensures { table.new.items ≡ updated k (λ row. grown_row growth row written.now) table.old.items }
{
    if k < table.len() {
        table[k].grow(growth, written);
    }
}

/// What is written comes in, thread by thread.
pub fn grow_table(table: &mut Vec<Intervals>, growth: Growth, written: &[Intervals])
    ensures { table.new.items ≡ grown_table growth table.old.items written.now }
{
    'threads: for (k, row) in written.iter().enumerate() {
        grow_row(table, k, growth, row);
    }
}
