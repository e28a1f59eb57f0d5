//! The step where the product of some line with the row isn't 0: each other row is combined with that line.

ghost use Rattle.std.specs.Prelude.{◌≡◌, ◌≢◌, ◌<◌, ◌++◌, ◌∷◌, [], suc, pos, length, take, replicate, true, false, IfOk};
ghost use Rattle.std.specs.{List.All, Prelude.IfErr, Prelude.OnOk, Prelude.slice_index_or};
ghost use Rattle.lra_double_description.specs.Crates.lra_linear_spec.Kinds.{is_equality};
ghost use Rattle.lra_double_description.specs.Crates.{lra_linear_spec.Range.InRange, lra_linear_spec.Vectors.negated};
ghost use Rattle.lra_row.specs.Rows.{IsExcessOf};
ghost use Rattle.lra_double_description.specs.Steps.{IsTurned, IsFlattened, flattening, PushesFlattened, AreFlatLines};
ghost use Rattle.lra_double_description.specs.Steps.{AreFlatRays, flat_matrix};
ghost use Rattle.lra_double_description.specs.Strains.{strained_pair, IsFlatteningError};
ghost use Rattle.lra_double_description.specs.declared.strained.Family.TheVariants.{Lines, Rays};

use crate::saturation::{lengthen, one_more, push_lengthened};
use crate::strained::{ConeError, Family, Member, Strained};
use lra_bits::{BitRow, SatMatrix};
use lra_row::{ConKind, Excess, Row, RowError, opposite, push_copies};
use std::alloc::{AllocError, Global};

/// The line at a place in both directions; `product`, that of the row with `up`, is above 0.
#[derive(Drop)]
pub struct Across {
    pub place: usize,
    pub up: Row,
    pub down: Row,
    pub product: i128,
}

/// The line at the place, whose product with the row is this one.
pub fn orient_line(lines: &[Row], place: usize, product: i128) -> Result<Across, AllocError>
    requires inside { place < length lines.now }
    requires in_range { InRange product }
    requires across { product ≢ pos 0 }
    ensures { IfOk result (λ line. IsTurned (slice_index_or lines.now place []) place product line) }
{
    let line = lines[place].copy()?;
    let negative = line.negate()?;
    if product > 0 {
        return Ok(Across {
            place,
            up: line,
            down: negative,
            product,
        });
    }
    Ok(Across {
        place,
        up: negative,
        down: line,
        product: opposite(product),
    })
}

// The row combined with the line so that its product is 0, in lowest terms.
fn flatten_row(row: &Row, product: i128, line: &Across) -> Result<Row, RowError>
    requires up_width { length line.now.up ≡ length row.now }
    requires down_width { length line.now.down ≡ length row.now }
    requires turned { line.now.down ≡ negated line.now.up }
    requires in_range { InRange product }
    ensures ok { IfOk result (λ flat. IsFlattened line.now product row.now flat) }
    ensures excess { IfErr result (IsExcessOf (flattening line.now product row.now)) }
{
    if product == 0 {
        let same = row.copy()?;
        return Ok(same);
    }
    let mut flat = if product > 0 {
        row.blend(line.product, product, &line.down)?
    } else {
        line.up.blend(opposite(product), line.product, row)?
    };
    flat.lowest_terms();
    Ok(flat)
}

// What passes as the member is combined with the line.
fn pair_strain(member: Member, product: i128, line: &Across, excess: Excess) -> Strained
    ensures { result ≡ strained_pair member product line.now.place excess }
{
    let with = Member {
        family: Family::Lines,
        place: line.place,
    };
    if product > 0 {
        Strained::Pair(member, with, excess)
    } else {
        Strained::Pair(with, member, excess)
    }
}

/// Each row combined with the line, after what is there.
pub fn push_flattened(
    out: &mut Vec<Row>,
    rows: &[Row],
    products: &[i128],
    line: &Across,
    family: Family,
) -> Result<(), ConeError>
    requires each { length products.now ≡ length rows.now }
    requires in_range { All InRange products.now }
    requires up_widths { All (λ r. length line.now.up ≡ length r) rows.now }
    requires down_widths { All (λ r. length line.now.down ≡ length r) rows.now }
    requires turned { line.now.down ≡ negated line.now.up }
    ensures ok { OnOk result (PushesFlattened line.now products.now rows.now out.old.items out.new.items) }
    ensures strained { IfErr result (IsFlatteningError line.now products.now rows.now family) }
{
    for place in 0..rows.len() {
        match flatten_row(&rows[place], products[place], line) {
            Ok(flat) => out.push(flat)?,
            Err(RowError::Memory) => return Err(ConeError::Memory),
            Err(RowError::Excess(excess)) => {
                let member = Member { family, place };
                let strained = pair_strain(member, products[place], line, excess);
                return Err(ConeError::Strained(strained));
            }
        }
    }
    Ok(())
}

/// The lines: those before the one across combined with it, and those after it again.
pub fn flat_lines(
    alloc: Global,
    lines: &[Row],
    products: &[i128],
    line: &Across,
) -> Result<Vec<Row>, ConeError>
    requires inside { line.now.place < length lines.now }
    requires each { length products.now ≡ length lines.now }
    requires in_range { All InRange products.now }
    requires up_widths { All (λ r. length line.now.up ≡ length r) lines.now }
    requires down_widths { All (λ r. length line.now.down ≡ length r) lines.now }
    requires turned { line.now.down ≡ negated line.now.up }
    ensures ok { IfOk result (λ out. AreFlatLines line.now products.now lines.now out.items) }
    ensures strained { IfErr result (IsFlatteningError line.now
        (take line.now.place products.now) (take line.now.place lines.now) Lines) }
{
    let mut out = Vec::with_capacity(alloc, lines.len())?;
    let before = &lines[..line.place];
    let of_before = &products[..line.place];
    push_flattened(&mut out, before, of_before, line, Family::Lines)?;
    push_copies(&mut out, &lines[line.place + 1..])?;
    Ok(out)
}

/// The rays: for an inequality the line, which becomes a ray, and then each combined with the line.
pub fn flat_rays(
    alloc: Global,
    rays: &[Row],
    products: &[i128],
    line: &Across,
    kind: ConKind,
) -> Result<Vec<Row>, ConeError>
    requires each { length products.now ≡ length rays.now }
    requires in_range { All InRange products.now }
    requires up_widths { All (λ r. length line.now.up ≡ length r) rays.now }
    requires down_widths { All (λ r. length line.now.down ≡ length r) rays.now }
    requires turned { line.now.down ≡ negated line.now.up }
    ensures ok { IfOk result (λ out. AreFlatRays (is_equality kind) line.now products.now rays.now out.items) }
    ensures strained { IfErr result (IsFlatteningError line.now products.now rays.now Rays) }
{
    let mut out = Vec::with_capacity(alloc, rays.len())?;
    if kind == ConKind::Ge {
        out.push(line.up.copy()?)?;
    }
    push_flattened(&mut out, rays, products, line, Family::Rays)?;
    Ok(out)
}

// The line, which is tight at so many rows but not at the new one, after what is there.
fn push_line(alloc: Global, wider: &mut SatMatrix, width: usize) -> Result<(), AllocError>
    requires { wider.old.width ≡ suc width }
    ensures { OnOk result (wider.new ≡ record wider.old
        { rows = wider.old.rows ++ (replicate width true ++ false ∷ []) ∷ [] }) }
{
    let of_line = lengthen(&BitRow::all_true(alloc, width)?, false)?;
    wider.add_row(of_line)?;
    Ok(())
}

/// The matrix: the line is tight at all rows but the new one, and the others at the new one too.
pub fn flat_saturation(
    alloc: Global,
    saturation: &SatMatrix,
    kind: ConKind,
) -> Result<SatMatrix, AllocError>
    ensures { IfOk result (λ out. out ≡ flat_matrix (is_equality kind) saturation.now) }
{
    let width = saturation.width();
    let mut wider = SatMatrix::new(alloc, one_more(width)?);
    if kind == ConKind::Ge {
        push_line(alloc, &mut wider, width)?;
    }
    let tight = BitRow::all_true(alloc, saturation.height())?;
    push_lengthened(&mut wider, saturation, &tight)?;
    Ok(wider)
}
