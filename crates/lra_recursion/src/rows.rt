//! What is called from each place.

ghost use Rattle.std.specs.Prelude.{◌≡◌, ◌<◌, ◌++◌, ◌∷◌, [], ℕ, List, map, length, get_or, IfOk, OnOk};
ghost use Rattle.lra_recursion.specs.{Calls.callees_of, declared.calls.Call.Call as CallView};

use crate::calls::Call;
use std::alloc::{AllocError, Global};

/// Empty rows, `count` of them.
fn empty_rows(alloc: Global, count: usize) -> Result<Vec<Vec<usize>>, AllocError>
    ensures count { IfOk result (λ v. length v.items ≡ count) }
    ensures empty { IfOk result (λ v. (j : ℕ) → get_or (map (λ row. row.items) v.items) j [] ≡ []) }
{
    let mut rows = Vec::new(alloc);
    'rows: for _number in 0..count {
        rows.push(Vec::new(alloc))?;
    }
    Ok(rows)
}

/// Adds a call to the row of its caller.
fn add_call(rows: &mut [Vec<usize>], call: &Call) -> Result<(), AllocError>
    ensures count { IfOk result (λ _. length rows.new ≡ length rows.old) }
    ensures added { OnOk result ((j : ℕ) (rest : List CallView) → j < length rows.old →
        get_or (map (λ row. row.items) rows.new) j [] ++ callees_of j rest ≡
        get_or (map (λ row. row.items) rows.old) j [] ++ callees_of j (call.now ∷ rest)) }
{
    if call.caller < rows.len() {
        rows[call.caller].push(call.callee)?;
    }
    Ok(())
}

/// For each of so many places what is called from there.
pub fn find_rows(alloc: Global, count: usize, calls: &[Call]) -> Result<Vec<Vec<usize>>, AllocError>
    ensures count { IfOk result (λ v. length v.items ≡ count) }
    ensures rows { IfOk result (λ v. (j : ℕ) → j < count →
        get_or (map (λ row. row.items) v.items) j [] ≡ callees_of j calls.now) }
{
    let mut rows = empty_rows(alloc, count)?;
    'calls: for call in calls {
        add_call(&mut rows, call)?;
    }
    Ok(rows)
}
