//! Laws: the functions do nothing, and their contracts are the theorems.

ghost use Rattle.std.specs.Prelude.{◌≡◌, ℕ};
ghost use Rattle.lra_box.specs.Content.{BoxContent};
ghost use Rattle.lra_threads_fixpoint.specs.Interference.{admitting_row, interfered, interference_on};
ghost use Rattle.lra_threads_fixpoint.specs.Intervals.{IntervalTable};

/// Whether a value takes in the other threads' intervals one by one, or of each global their join: it becomes the same.
pub fn one_by_one_is_at_once()
    ensures { (globals k : ℕ) (table : IntervalTable) (v : BoxContent) →
        admitting_row 0 (interference_on globals k table) v ≡ interfered globals k table v }
{}
