//! What a path does to its variables, as rows over symbols.

ghost use Rattle.std.specs.Prelude.{◌++◌, ◌≡◌, ◌≤◌, ◌<◌, ◌+◌, ◌-◌, ◌^◌, length, take, slice_set, IfOk, IfErr, OnOk, []};
ghost use Rattle.std.specs.{List.All, Prelude.◌∷◌, Prelude.suc, Prelude.MatchOption};
ghost use Rattle.lra_certificate_lines.specs.Crates.lra_domain.Actions.{embed, forget};
ghost use Rattle.lra_certificate_lines.specs.Crates.lra_domain.Changes.{action_of};
ghost use Rattle.lra_certificate_lines.specs.Crates.lra_linear_spec.CheckedArithmetic.{checked_added};
ghost use Rattle.lra_certificate_lines.specs.Crates.lra_path_disjuncts.TableDisjuncts.{all_done};
ghost use Rattle.lra_certificate_lines.specs.Crates.{lra_linear_forms.Form.form_row, lra_linear_spec.Range.InRange};
ghost use Rattle.lra_row.specs.Rows.{IsExcessOf};
ghost use Rattle.lra_multipliers.specs.Symbols.{composed, new_symbols, symbols, executed_path, executed_action};
ghost use Rattle.lra_multipliers.specs.Symbols.{width_of};
ghost use Rattle.lra_certificate_lines.specs.SymbolicViews.{symbolic_view, HasWidth};

use lra_multipliers::{Change, ConSys, LinExpr};
use lra_row::{Row, RowError};
use std::alloc::{AllocError, Global};

/// The sum with so many times the row, or the first product or sum that passes; a factor 0 leaves it.
fn add_times(sum: Row, factor: i128, row: &Row) -> Result<Row, RowError>
    requires width { length sum ≡ length row.now }
    requires in_range { All InRange sum }
    ensures made { IfOk result (λ r. checked_added factor sum row.now ≡ Ok r) }
    ensures width { IfOk result (λ r. length r ≡ length row.now) }
    ensures in_range { IfOk result (All InRange) }
    ensures excess { IfErr result (IsExcessOf (checked_added factor sum row.now)) }
{
    if factor == 0 {
        return Ok(sum);
    }
    sum.blend(1, factor, row)
}

/// The row over the symbols of a row over variables: from its constant on each coefficient times the variable's row is
/// added, in column order; or the first product or sum that passes.
pub fn compose(alloc: Global, width: usize, row: &Row, forms: &[Row]) -> Result<Row, RowError>
    requires some { 0 < width }
    requires small { width < 2 ^ 62 }
    requires row { 0 < length row.now }
    requires forms { All (λ f. length f ≡ width) forms.now }
    ensures made { IfOk result (λ r. composed width row.now forms.now ≡ Ok r) }
    ensures width { IfOk result (λ r. length r ≡ width) }
    ensures excess { IfErr result (IsExcessOf (composed width row.now forms.now)) }
{
    let mut sum = Row::unit(alloc, width - 1, 0, row.get(0))?;
    let mut place = 0;
    'columns: while place < forms.len() && place + 1 < row.width() {
        match add_times(sum, row.get(place + 1), &forms[place]) {
            Ok(next) => sum = next,
            Err(error) => return Err(error),
        }
        place += 1;
    }
    Ok(sum)
}

/// The variable at this place, if there is one, gets the row.
fn put(forms: &mut Vec<Row>, place: usize, row: Row)
    ensures { forms.new.items ≡ slice_set forms.old.items place row }
{
    if place < forms.len() {
        forms[place] = row;
    }
}

/// Removes so many variables from the end, or all.
fn cut_last(forms: &mut Vec<Row>, count: usize)
    ensures { forms.new.items ≡ take (length forms.old.items - count) forms.old.items }
{
    let left = forms.len().saturating_sub(count);
    forms.truncate(left);
}

/// Appends so many variables, each with a symbol of its own, from this column on.
fn push_symbols(
    alloc: Global,
    width: usize,
    first: usize,
    count: usize,
    forms: &mut Vec<Row>,
) -> Result<(), AllocError>
    requires small { width < 2 ^ 62 }
    requires free { first + count ≤ width }
    ensures { OnOk result (forms.new.items ≡ forms.old.items ++ symbols width first count) }
{
    for column in first..first + count {
        forms.push(Row::unit(alloc, width - 1, column, 1)?)?;
    }
    Ok(())
}

/// How many symbols the change brings.
fn symbols_of(change: &Change) -> usize
    ensures { result ≡ new_symbols (action_of change.now ∷ []) }
{
    match change {
        Change::Assign(_, _) => 0,
        Change::Forget(_) => 1,
        Change::Test(_) => 0,
        Change::Embed(count) => *count,
        Change::RemoveLast(_) => 0,
    }
}

/// How many symbols the changes bring; none if no memory holds a row of so many columns.
fn count_symbols(path: &[&Change]) -> Option<usize>
    ensures { MatchOption result (2 ^ 60 ≤ new_symbols (all_done path.now))
        (λ n. (n ≡ new_symbols (all_done path.now)) × (n < 2 ^ 60)) }
{
    let mut count = 0;
    for change in path.iter() {
        let more = symbols_of(change);
        if more >= (1 << 60) - count {
            return None;
        }
        count += more;
    }
    Some(count)
}

/// A path so far: the rows of the variables that live, its tests, and the first column that is free.
#[derive(Drop)]
pub struct SymbolicExecution {
    pub forms: Vec<Row>,
    pub tests: ConSys,
    pub free: usize,
}

impl SymbolicExecution {
    /// At a source with so many variables, over rows of this width.
    fn start(alloc: Global, width: usize, live: usize) -> Result<SymbolicExecution, AllocError>
        requires small { width < 2 ^ 62 }
        requires live { live < width }
        ensures is { IfOk result (λ w. symbolic_view w ≡
            record { forms = symbols width 1 live; tests = []; free = suc live }) }
        ensures wide { IfOk result (HasWidth width) }
    {
        let mut forms = Vec::new(alloc);
        push_symbols(alloc, width, 1, live, &mut forms)?;
        Ok(SymbolicExecution {
            forms,
            tests: ConSys::new(alloc, width - 1),
            free: live + 1,
        })
    }

    /// The row of a form over the symbols.
    fn compose(&self, alloc: Global, form: &LinExpr) -> Result<Row, RowError>
        requires small { self.now.tests.dims < 2 ^ 61 }
        requires wide { HasWidth (suc self.now.tests.dims) self.now }
        ensures made { IfOk result (λ r.
            composed (suc self.now.tests.dims) (form_row form.now) self.now.forms.items ≡ Ok r) }
        ensures width { IfOk result (λ r. length r ≡ suc self.now.tests.dims) }
        ensures excess { IfErr result (IsExcessOf
            (composed (suc self.now.tests.dims) (form_row form.now) self.now.forms.items)) }
    {
        let row = form.to_row(alloc)?;
        compose(alloc, self.tests.dims() + 1, &row, self.forms.as_slice())
    }

    /// The variable gets a symbol of its own.
    fn forget(&mut self, alloc: Global, place: usize) -> Result<(), AllocError>
        requires small { self.old.tests.dims < 2 ^ 61 }
        requires wide { HasWidth (suc self.old.tests.dims) self.old }
        requires free { self.old.free < suc self.old.tests.dims }
        ensures made { OnOk result (executed_action (suc self.old.tests.dims) (forget place)
            (symbolic_view self.old) ≡ Ok (symbolic_view self.new)) }
        ensures wide { OnOk result (HasWidth (suc self.old.tests.dims) self.new) }
        ensures free { OnOk result (self.new.free ≡ suc self.old.free) }
    {
        let row = Row::unit(alloc, self.tests.dims(), self.free, 1)?;
        put(&mut self.forms, place, row);
        self.free += 1;
        Ok(())
    }

    /// Appends so many variables, each with a symbol of its own.
    fn embed(&mut self, alloc: Global, count: usize) -> Result<(), AllocError>
        requires small { self.old.tests.dims < 2 ^ 61 }
        requires wide { HasWidth (suc self.old.tests.dims) self.old }
        requires free { self.old.free + count ≤ suc self.old.tests.dims }
        ensures made { OnOk result (executed_action (suc self.old.tests.dims) (embed count)
            (symbolic_view self.old) ≡ Ok (symbolic_view self.new)) }
        ensures wide { OnOk result (HasWidth (suc self.old.tests.dims) self.new) }
        ensures free { OnOk result (self.new.free ≡ self.old.free + count) }
    {
        let width = self.tests.dims() + 1;
        push_symbols(alloc, width, self.free, count, &mut self.forms)?;
        self.free += count;
        Ok(())
    }

    /// One change more.
    fn take_change(&mut self, alloc: Global, change: &Change) -> Result<(), RowError>
        requires small { self.old.tests.dims < 2 ^ 61 }
        requires wide { HasWidth (suc self.old.tests.dims) self.old }
        requires free { self.old.free + new_symbols (action_of change.now ∷ [])
            ≤ suc self.old.tests.dims }
        ensures made { OnOk result (executed_action (suc self.old.tests.dims) (action_of change.now)
            (symbolic_view self.old) ≡ Ok (symbolic_view self.new)) }
        ensures wide { OnOk result (HasWidth (suc self.old.tests.dims) self.new) }
        ensures free { OnOk result
            (self.new.free ≡ self.old.free + new_symbols (action_of change.now ∷ [])) }
        ensures excess { IfErr result (IsExcessOf
            (executed_action (suc self.old.tests.dims) (action_of change.now)
            (symbolic_view self.old))) }
    {
        match change {
            Change::Assign(place, form) => {
                let row = self.compose(alloc, form)?;
                put(&mut self.forms, *place, row);
                Ok(())
            }
            Change::Forget(place) => {
                self.forget(alloc, *place)?;
                Ok(())
            }
            Change::Test(test) => {
                let row = self.compose(alloc, &test.expr)?;
                self.tests.push(row, test.kind)?;
                Ok(())
            }
            Change::Embed(count) => {
                self.embed(alloc, *count)?;
                Ok(())
            }
            Change::RemoveLast(count) => {
                cut_last(&mut self.forms, *count);
                Ok(())
            }
        }
    }

    /// What the path does to so many variables; or the first product or sum that passes.
    pub fn execute(
        alloc: Global,
        live: usize,
        path: &[&Change],
    ) -> Result<SymbolicExecution, RowError>
        requires { live < 2 ^ 31 }
        ensures made { IfOk result
            (λ w. executed_path live (all_done path.now) ≡ Ok (symbolic_view w)) }
        ensures wide { IfOk result (HasWidth (width_of live (all_done path.now))) }
        ensures small { IfOk result (λ w. w.tests.dims < 2 ^ 61) }
        ensures excess { IfErr result (IsExcessOf (executed_path live (all_done path.now))) }
    {
        let Some(count) = count_symbols(path) else {
            return Err(RowError::Memory);
        };
        let mut walk = SymbolicExecution::start(alloc, live + count + 1, live)?;
        for change in path.iter() {
            match walk.take_change(alloc, change) {
                Ok(()) => {}
                Err(error) => return Err(error),
            }
        }
        Ok(walk)
    }
}
