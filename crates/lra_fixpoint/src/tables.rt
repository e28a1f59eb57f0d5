//! What a pass finds, by the numbers of the points.

ghost use Rattle.std.specs.Option.{option_to_list};
ghost use Rattle.std.specs.Prelude.{◌≡◌, ◌<◌, length, map, replicate, flat_map, slice_set, None, Some, IfOk};
ghost use Rattle.lra_pass_results.specs.Outcome.{entry_view};
ghost use Rattle.lra_fixpoint.specs.Counts.{AreApart};
ghost use Rattle.lra_fixpoint.specs.Tables.{note_view, notes_in, AreTabled, filled_from};

use lra_interference_sound::Domain;
use lra_pass_results::PassEntry;
use std::alloc::{AllocError, Global};

/// What is known when at this point the variable at this place has just got a value.
pub struct Note<D> {
    pub point: usize,
    pub variable: usize,
    pub value: D,
}

impl<D: Drop> Drop for Note<D> {
    fn drop(self) {
        let Note {
            point: _,
            variable: _,
            value: _,
        } = self;
    }
}

/// At the numbers of the points the values, and whether an assertion is proved; and the notes in the order in which
/// they are found.
#[derive(Drop)]
pub struct Tables<D> {
    pub values: Vec<Option<D>>,
    pub verdicts: Vec<Option<bool>>,
    pub notes: Vec<Note<D>>,
}

/// A table of so many empty places.
fn empty_table<T: Drop>(alloc: Global, count: usize) -> Result<Vec<Option<T>>, AllocError>
    ensures { IfOk result (λ table. table.items ≡ replicate count None) }
{
    let mut table = Vec::new(alloc);
    'places: for _place in 0..count {
        table.push(None)?;
    }
    Ok(table)
}

/// The place holds this value from now on.
fn fill<T: Drop>(table: &mut Vec<Option<T>>, place: usize, value: T)
    requires { place < length table.old.items }
    ensures { table.new.items ≡ slice_set table.old.items place (Some value) }
{
    table[place] = Some(value);
}

/// The entries at their numbers, and the notes; an assertion is proved if its value is empty.
pub fn tables_of<D: Domain>(
    alloc: Global,
    count: usize,
    entries: Vec<PassEntry<D>>,
) -> Result<Tables<D>, AllocError>
    requires { AreApart count (map entry_view entries.items) }
    ensures tabled { IfOk result (λ tables. AreTabled D.abstraction count
        (map entry_view entries.items) tables.values.items tables.verdicts.items) }
    ensures noted { IfOk result (λ tables. map note_view tables.notes.items ≡
        notes_in (map entry_view entries.items)) }
{
    let mut values = empty_table(alloc, count)?;
    let mut verdicts = empty_table(alloc, count)?;
    let mut notes = Vec::new(alloc);
    'entries: for entry in entries {
        match entry {
            PassEntry::Value(point, value) => fill(&mut values, point, value),
            PassEntry::Failing(point, value) => fill(&mut verdicts, point, value.is_empty()),
            PassEntry::Recorded(point, variable, value) => notes.push(Note {
                point,
                variable,
                value,
            })?,
        }
    }
    Ok(Tables {
        values,
        verdicts,
        notes,
    })
}

/// What the filled places hold.
pub fn take_held<T: Drop>(alloc: Global, table: Vec<Option<T>>) -> Result<Vec<T>, AllocError>
    ensures { IfOk result (λ held. held.items ≡ flat_map option_to_list table.items) }
{
    table.into_iter().flatten().collect(alloc)
}

/// What the filled places hold, with the places' numbers.
pub fn number_held(alloc: Global, table: &[Option<bool>]) -> Result<Vec<(usize, bool)>, AllocError>
    ensures { IfOk result (λ numbered. numbered.items ≡ filled_from 0 table.now) }
{
    let mut numbered = Vec::new(alloc);
    'places: for (number, place) in table.iter().enumerate() {
        if let Some(proved) = place {
            numbered.push((number, *proved))?;
        }
    }
    Ok(numbered)
}
