//! The canonical list of a list's own kind, from the cone that its rows were added to.

ghost use Rattle.std.specs.Prelude.{◌≡◌, ◌++◌, ◌∷◌, [], ℕ, List, ℤ, ◌+◌, ◌<◌, ◌≤◌, length, IfOk, IfErr, OnOk};
ghost use Rattle.std.specs.Prelude.{slice_index_or};
ghost use Rattle.lra_cone.specs.Cones.{IsCone};
ghost use Rattle.lra_description_pair.specs.Crates.lra_canonical.Echelons.{HaveWidth};
ghost use Rattle.lra_description_pair.specs.Crates.lra_canonical.Reduced.{IsEchelonForm};
ghost use Rattle.lra_description_pair.specs.Crates.lra_double_description.Steps.{IsFilled};
ghost use Rattle.lra_description_pair.specs.Crates.lra_linear_spec.ConeStrain.{row_limit};
ghost use Rattle.lra_description_pair.specs.Crates.lra_linear_spec.Descriptions.{rows_of};
ghost use Rattle.lra_description_pair.specs.Crates.lra_systems.Dimensions.{too_many_dimensions};
ghost use Rattle.lra_description_pair.specs.OwnLists.{TellsTight, AreParts, AreReducedBy, AnyReductionExcess};
ghost use Rattle.lra_description_pair.specs.OwnLists.{IsOwnCause, IsOwnList, IsOwnExcess, columns_of, tight_value};
ghost use Rattle.lra_descriptions.specs.Tightness.{tight_matrix};

use lra_cone::{Cause, Cone, RAY_LIMIT};
use lra_descriptions::{BitRow, Row, RowError, SatMatrix, drop_redundant, echelon, reduce};
use std::alloc::{AllocError, Global};

// Whether the row at the place is tight at this ray; past the rays stand lines, at which each row is.
fn is_tight(saturation: &SatMatrix, place: usize, ray: usize) -> bool
    requires { place < saturation.now.width }
    ensures { result ≡ tight_value saturation.now.rows place ray }
{
    if ray < saturation.height() {
        saturation.row(ray).get(place)
    } else {
        true
    }
}

// At which rays, and lines after them, the row at the place is tight.
fn tight_where(
    alloc: Global,
    saturation: &SatMatrix,
    width: usize,
    place: usize,
) -> Result<BitRow, AllocError>
    requires { place < saturation.now.width }
    ensures { IfOk result (IsFilled (tight_value saturation.now.rows place) width width) }
{
    let mut bits = BitRow::new(alloc, width)?;
    for ray in 0..width {
        bits.set(ray, is_tight(saturation, place, ray));
    }
    Ok(bits)
}

// The rows that are tight at all rays, and the others with where they are tight.
#[derive(Drop)]
struct Parts {
    tight: Vec<Row>,
    loose: Vec<Row>,
    saturation: SatMatrix,
}

impl Parts {
    // Puts a row, tight where the values say, to its part.
    fn push(&mut self, row: Row, bits: BitRow) -> Result<(), AllocError>
        requires { length bits ≡ self.old.saturation.width }
        ensures width { OnOk result (self.new.saturation.width ≡ self.old.saturation.width) }
        ensures parts { OnOk result ((rays : List (List ℤ)) (lines : ℕ) (rows : List (List ℤ)) →
            TellsTight rays lines row bits →
            AreParts rays lines rows self.old.tight.items self.old.loose.items self.old.saturation.rows →
            AreParts rays lines (rows ++ row ∷ []) self.new.tight.items self.new.loose.items self.new.saturation.rows) }
    {
        if bits.are_true() {
            self.tight.push(row)?;
        } else {
            self.loose.push(row)?;
            self.saturation.add_row(bits)?;
        }
        Ok(())
    }
}

// The row added at the place, and at which rays, and lines after them, it is tight.
fn read_row(
    alloc: Global,
    cone: &Cone,
    width: usize,
    place: usize,
) -> Result<(Row, BitRow), AllocError>
    requires width { width ≡ length cone.now.rays + length cone.now.lines }
    requires inside { place < length (rows_of cone.now.taken) }
    ensures row { IfOk result (λ told. told.0 ≡ slice_index_or (rows_of cone.now.taken) place []) }
    ensures tight { IfOk result (λ told. TellsTight cone.now.rays (length cone.now.lines) told.0 told.1) }
{
    let taken = cone.taken();
    let (rows, _kinds) = (taken.rows(), taken.kinds());
    let bits = tight_where(alloc, cone.saturation(), width, place)?;
    let row = rows[place].copy()?;
    Ok((row, bits))
}

// The parts of the rows added.
fn part_rows(alloc: Global, cone: &Cone) -> Result<Parts, AllocError>
    ensures cone { IsCone cone.now }
    ensures width { IfOk result (λ p.
        p.saturation.width ≡ length cone.now.rays + length cone.now.lines) }
    ensures parts { IfOk result (λ p. AreParts cone.now.rays (length cone.now.lines) (rows_of cone.now.taken)
        p.tight.items p.loose.items p.saturation.rows) }
{
    let Some(width) = cone.rays().len().checked_add(cone.lines().len()) else {
        return Err(AllocError);
    };
    let mut parts = Parts {
        tight: Vec::new(alloc),
        loose: Vec::new(alloc),
        saturation: SatMatrix::new(alloc, width),
    };
    let taken = cone.taken();
    let (rows, _kinds) = (taken.rows(), taken.kinds());
    for place in 0..rows.len() {
        let (row, bits) = read_row(alloc, cone, width, place)?;
        parts.push(row, bits)?;
    }
    Ok(parts)
}

/// The rows reduced by the form. Or names the first number that passes the range.
pub fn all_reduced(
    alloc: Global,
    rows: &[Row],
    form: &[Row],
    width: usize,
) -> Result<Vec<Row>, RowError>
    requires wide { 0 < width }
    requires rows { HaveWidth width rows.now }
    requires form_widths { HaveWidth width form.now }
    requires form { IsEchelonForm form.now }
    ensures reduced { IfOk result (λ reduced. AreReducedBy form.now rows.now reduced.items) }
    ensures widths { IfOk result (λ reduced. HaveWidth width reduced.items) }
    ensures excess { IfErr result (AnyReductionExcess form.now rows.now) }
{
    let mut all = Vec::new(alloc);
    for row in rows {
        let mut reduced = row.copy()?;
        reduce(&mut reduced, form)?;
        all.push(reduced)?;
    }
    Ok(all)
}

// Reduces each of the rows by the form. Or names the first number that passes the range.
fn reduce_all(rows: &mut Vec<Row>, form: &[Row], width: usize) -> Result<(), RowError>
    requires wide { 0 < width }
    requires rows { HaveWidth width rows.old.items }
    requires form_widths { HaveWidth width form.now }
    requires form { IsEchelonForm form.now }
    ensures reduced { OnOk result (AreReducedBy form.now rows.old.items rows.new.items) }
    ensures widths { OnOk result (HaveWidth width rows.new.items) }
    ensures excess { IfErr result (AnyReductionExcess form.now rows.old.items) }
{
    for row in rows.iter_mut() {
        reduce(row, form)?;
    }
    Ok(())
}

/// Lines and rays: of constraints the equalities and inequalities, of generators the lines and the points and rays.
#[derive(Drop)]
pub struct Own {
    pub lines: Vec<Row>,
    pub rays: Vec<Row>,
}

/// Lines and rays as of `Own`, and at which of the cone's rays, and lines after them, each of the rays is tight.
#[derive(Drop)]
pub struct MarkedOwn {
    pub lines: Vec<Row>,
    pub rays: Vec<Row>,
    pub saturation: SatMatrix,
}

/// The canonical description of what the rows added to the cone generate: of constraints the canonical equalities and
/// inequalities, of generators the canonical lines and rays, with the matrix of its rays. Or names a number that passes
/// the range in it.
pub fn find_marked_list(alloc: Global, cone: &Cone) -> Result<MarkedOwn, RowError>
    requires { cone.now.dims < too_many_dimensions }
    ensures ok { IfOk result (λ own. IsOwnList cone.now own.lines.items own.rays.items) }
    ensures matrix { IfOk result (λ own.
        own.saturation ≡ tight_matrix (columns_of cone.now) own.rays.items) }
    ensures excess { IfErr result (IsOwnExcess cone.now) }
{
    let Parts {
        tight: mut lines,
        loose: mut rays,
        mut saturation,
    } = part_rows(alloc, cone)?;
    echelon(&mut lines)?;
    reduce_all(&mut rays, &lines, cone.dims() + 1)?;
    drop_redundant(&mut rays, &mut saturation)?;
    Ok(MarkedOwn {
        lines,
        rays,
        saturation,
    })
}

/// The canonical description of what the rows added to the cone generate: of constraints the canonical equalities and
/// inequalities, of generators the canonical lines and rays. Or names a number that passes the range in it.
pub fn find_own_list(alloc: Global, cone: &Cone) -> Result<Own, RowError>
    requires { cone.now.dims < too_many_dimensions }
    ensures ok { IfOk result (λ own. IsOwnList cone.now own.lines.items own.rays.items) }
    ensures excess { IfErr result (IsOwnExcess cone.now) }
{
    let own = find_marked_list(alloc, cone)?;
    let MarkedOwn {
        lines,
        rays,
        saturation: _,
    } = own;
    Ok(Own { lines, rays })
}

/// The canonical description of what the rows added to the cone generate, within the limit of a description, with the
/// matrix of its rays; or why there is none: a number passes the range in it, or it has too many rays.
pub fn limit_own_list(alloc: Global, cone: &Cone) -> Result<Result<MarkedOwn, Cause>, AllocError>
    requires { cone.now.dims < too_many_dimensions }
    ensures list { IfOk result (λ list. IfOk list (λ own. IsOwnList cone.now own.lines.items own.rays.items)) }
    ensures few { IfOk result (λ list. IfOk list (λ own. length own.rays.items ≤ row_limit)) }
    ensures matrix { IfOk result (λ list. IfOk list (λ own.
        own.saturation ≡ tight_matrix (columns_of cone.now) own.rays.items)) }
    ensures cause { IfOk result (λ list. IfErr list (IsOwnCause cone.now)) }
{
    match find_marked_list(alloc, cone) {
        Ok(own) => {
            let count = own.rays.len();
            if count > RAY_LIMIT {
                Ok(Err(Cause::TooMany(count)))
            } else {
                Ok(Ok(own))
            }
        }
        Err(RowError::Memory) => Err(AllocError),
        Err(RowError::Excess(excess)) => Ok(Err(Cause::Excess(excess))),
    }
}
