//! Cones.

ghost use Rattle.std.specs.Prelude.{◌≡◌, ◌≢◌, ◌++◌, ◌∷◌, [], suc, pos, ◌<◌, ◌≤◌, slice_index_or, Some, length, map};
ghost use Rattle.std.specs.{List.All, Prelude.IfOk, Prelude.IfErr, Prelude.OnOk, Prelude.OnErr};
ghost use Rattle.lra_cone.specs.Crates.lra_linear_spec.ConeStrain.{IsIntersection};
ghost use Rattle.lra_cone.specs.Crates.{lra_linear_spec.Cones.all_rows, lra_linear_spec.Descriptions.inequality};
ghost use Rattle.lra_cone.specs.Crates.{lra_linear_spec.Kinds.is_equality, lra_linear_spec.Polyhedra.positivity};
ghost use Rattle.lra_cone.specs.Crates.{lra_linear_spec.Range.InRange, lra_linear_spec.Vectors.product};
ghost use Rattle.lra_systems.specs.{Dimensions.too_many_dimensions, LinearSystems.constraints};
ghost use Rattle.lra_cone.specs.Cones.{ConeContent, IsCone, IsTakenIn, cone_saturation, saturation_rows, whole_space};
ghost use Rattle.lra_cone.specs.{Flat.AreFlat, Flat.IsFlatError, Strains.IsConeError};
ghost use Rattle.lra_double_description.specs.{Pairs.IsCut, Steps.IsLastAcross, Thirds.FewHaveThird};

use lra_canonical::{SatMatrix, remove_marked};
use lra_double_description::{
    ConeError, Cut, Family, RAY_LIMIT, Strained, cut_rays, flat_lines, flat_rays, flat_saturation,
    last_across, multiply_all, orient_line,
};
use lra_systems::{ConKind, ConSys, Row, unit};
use std::alloc::{AllocError, Global};
use std::marker::Model;

/// The solutions of the rows added so far, by lines and rays in their canonical form: none is redundant. The
/// saturation matrix says which rows are tight at which rays; it is changed with the rays.
pub struct Cone {
    taken: ConSys,
    lines: Vec<Row>,
    rays: Vec<Row>,
    saturation: SatMatrix,
}

impl Drop for Cone {
    fn drop(self) {
        let Cone {
            taken: _,
            lines: _,
            rays: _,
            saturation: _,
        } = self;
    }
}

impl Model for Cone {
    ghost use Rattle.std.specs.Prelude.{◌≡◌, length};
    ghost use Rattle.lra_systems.specs.LinearSystems.{constraints};
    ghost use Rattle.lra_cone.specs.Cones.{ConeContent, IsCone, cone_saturation};

    ghost Value = { ConeContent };

    ghost view = { λ s.
        record { dims = s.taken.dims; taken = constraints s.taken; lines = s.lines.items; rays = s.rays.items } };

    ghost invariant = { λ s.
        IsCone (record { dims = s.taken.dims; taken = constraints s.taken; lines = s.lines.items; rays = s.rays.items })
        × (s.saturation ≡ cone_saturation (constraints s.taken) s.rays.items)
        × (length s.taken.rows ≡ length s.taken.kinds) };
}

// The lists of a cone and its matrix, with a line across: its other rows are combined with that line.
#[derive(Drop)]
struct Flat {
    lines: Vec<Row>,
    rays: Vec<Row>,
    saturation: SatMatrix,
}

impl Cone {
    /// All vectors of n + 1 columns: no row is added.
    pub fn whole(alloc: Global, n: usize) -> Result<Cone, AllocError>
        requires { n < too_many_dimensions }
        ensures { IfOk result (λ cone. cone ≡ whole_space n) }
    {
        let mut lines = Vec::with_capacity(alloc, n + 1)?;
        for column in 1..n + 1 {
            lines.push(unit(alloc, n, column)?)?;
        }
        lines.push(unit(alloc, n, 0)?)?;
        Ok(Cone {
            taken: ConSys::new(alloc, n),
            lines,
            rays: Vec::new(alloc),
            saturation: SatMatrix::new(alloc, 0),
        })
    }

    /// The cone of a description that is at hand: these rows added, their lines and rays, and which of them are
    /// tight at which rays.
    pub fn of_lists(taken: ConSys, lines: Vec<Row>, rays: Vec<Row>, saturation: SatMatrix) -> Cone
        requires cone { IsCone (record {
          dims = taken.dims;
          taken = constraints taken;
          lines = lines.items;
          rays = rays.items;
        }) }
        requires saturation { saturation ≡ cone_saturation (constraints taken) rays.items }
        ensures { result ≡ record {
          dims = taken.dims;
          taken = constraints taken;
          lines = lines.items;
          rays = rays.items;
        } }
    {
        let _kinds = taken.kinds(); // fact: as many kinds as rows
        Cone {
            taken,
            lines,
            rays,
            saturation,
        }
    }

    /// The number of dimensions: a row has one column more.
    pub fn dims(&self) -> usize
        ensures { result ≡ self.now.dims }
    {
        self.taken.dims()
    }

    /// The rows added, in their order.
    pub fn taken(&self) -> &ConSys
        ensures dims { result.now.dims ≡ self.now.dims }
        ensures taken { constraints result.now ≡ self.now.taken }
        ensures cone { IsCone self.now }
    {
        &self.taken
    }

    /// The lines, by pivot.
    pub fn lines(&self) -> &[Row]
        ensures lines { result.now ≡ self.now.lines }
        ensures cone { IsCone self.now }
    {
        self.lines.as_slice()
    }

    /// The rays.
    pub fn rays(&self) -> &[Row]
        ensures rays { result.now ≡ self.now.rays }
        ensures cone { IsCone self.now }
    {
        self.rays.as_slice()
    }

    /// Which of the rows added are tight at which of the rays.
    pub fn saturation(&self) -> &SatMatrix
        ensures { result.now ≡ cone_saturation self.now.taken self.now.rays }
    {
        &self.saturation
    }

    /// Takes a row in: the cone becomes that of its vectors at which the row holds. If that exceeds a limit, or
    /// if there is no memory, the cone stays as it was.
    pub fn add_row(&mut self, row: &Row, kind: ConKind) -> Result<(), ConeError>
        requires { length row.now ≡ suc self.old.dims }
        ensures dims { self.new.dims ≡ self.old.dims }
        ensures taken { OnOk result (self.new.taken ≡ self.old.taken ++
            record { row = row.now; equal = is_equality kind } ∷ []) }
        ensures met { OnOk result (IsIntersection (suc self.old.dims) (is_equality kind) row.now
            (all_rows self.old.lines self.old.rays) (all_rows self.new.lines self.new.rays)) }
        ensures strained { IfErr result (IsConeError self.old (is_equality kind) row.now) }
        ensures unchanged { OnErr result (self.new ≡ self.old) }
    {
        let alloc = *self.lines.allocator();
        let of_lines = multiply_all(alloc, row, &self.lines, Family::Lines)?;
        let of_rays = multiply_all(alloc, row, &self.rays, Family::Rays)?;
        match last_across(&of_lines) {
            Some(place) => self.flatten(row, kind, place, &of_lines, &of_rays),
            None => self.cut(row, kind, &of_rays),
        }
    }

    // What comes of its lists with the line at the place across, by the products of a row with the lines and rays.
    fn find_flat(
        &self,
        kind: ConKind,
        place: usize,
        of_lines: &[i128],
        of_rays: &[i128],
    ) -> Result<Flat, ConeError>
        requires inside { place < length self.now.lines }
        requires across { slice_index_or of_lines.now place (pos 0) ≢ pos 0 }
        requires each_line { length of_lines.now ≡ length self.now.lines }
        requires each_ray { length of_rays.now ≡ length self.now.rays }
        requires lines_in_range { All InRange of_lines.now }
        requires rays_in_range { All InRange of_rays.now }
        ensures cone { IsCone self.now }
        ensures flat { IfOk result (λ flat. AreFlat (is_equality kind) self.now place of_lines.now of_rays.now
            flat.lines.items flat.rays.items flat.saturation) }
        ensures strained { IfErr result (IsFlatError self.now place of_lines.now of_rays.now) }
    {
        let alloc = *self.lines.allocator();
        let line = orient_line(&self.lines, place, of_lines[place])?;
        let lines = flat_lines(alloc, &self.lines, of_lines, &line)?;
        let rays = flat_rays(alloc, &self.rays, of_rays, &line, kind)?;
        let saturation = flat_saturation(alloc, &self.saturation, kind)?;
        Ok(Flat {
            lines,
            rays,
            saturation,
        })
    }

    // Takes a row in if its product with the line at the place, and with none after it, isn't 0.
    fn flatten(
        &mut self,
        row: &Row,
        kind: ConKind,
        place: usize,
        of_lines: &[i128],
        of_rays: &[i128],
    ) -> Result<(), ConeError>
        requires width { length row.now ≡ suc self.old.dims }
        requires of_lines { of_lines.now ≡ map (product row.now) self.old.lines }
        requires of_rays { of_rays.now ≡ map (product row.now) self.old.rays }
        requires lines_in_range { All InRange of_lines.now }
        requires rays_in_range { All InRange of_rays.now }
        requires last { IsLastAcross of_lines.now (length of_lines.now) (Some place) }
        ensures ok { OnOk result (IsTakenIn self.old (record { row = row.now; equal = is_equality kind }) self.new) }
        ensures strained { IfErr result (IsConeError self.old (is_equality kind) row.now) }
        ensures unchanged { OnErr result (self.new ≡ self.old) }
    {
        let flat = self.find_flat(kind, place, of_lines, of_rays)?;
        let count = flat.rays.len();
        if count > RAY_LIMIT {
            return Err(ConeError::Strained(Strained::TooMany(count)));
        }
        self.taken.push_copy(row, kind)?;
        let Flat {
            lines,
            rays,
            saturation,
        } = flat;
        self.lines = lines;
        self.rays = rays;
        self.saturation = saturation;
        Ok(())
    }

    // At least so many rows are tight at both of two adjacent rays: one fewer than there are dimensions beside the
    // lines.
    fn least_shared(&self) -> usize
        ensures { FewHaveThird (saturation_rows self.now.taken self.now.rays) result }
    {
        let free = self.taken.dims().saturating_sub(self.lines.len());
        free.saturating_sub(1)
    }

    // Takes a row in if its product with each line is 0.
    fn cut(&mut self, row: &Row, kind: ConKind, products: &[i128]) -> Result<(), ConeError>
        requires width { length row.now ≡ suc self.old.dims }
        requires flat { All (λ l. product row.now l ≡ pos 0) self.old.lines }
        requires of_rays { products.now ≡ map (product row.now) self.old.rays }
        requires in_range { All InRange products.now }
        ensures ok { OnOk result (IsTakenIn self.old (record { row = row.now; equal = is_equality kind }) self.new) }
        ensures strained { IfErr result (IsConeError self.old (is_equality kind) row.now) }
        ensures unchanged { OnErr result (self.new ≡ self.old) }
    {
        let alloc = *self.lines.allocator();
        let least = self.least_shared();
        let made = cut_rays(alloc, &self.rays, &self.saturation, products, kind, least)?;
        self.exchange_rays(row, kind, made)?;
        Ok(())
    }

    // Takes a row in by what it makes of the rays, if its product with each line is 0.
    fn exchange_rays(&mut self, row: &Row, kind: ConKind, made: Cut) -> Result<(), AllocError>
        requires width { length row.now ≡ suc self.old.dims }
        requires flat { All (λ l. product row.now l ≡ pos 0) self.old.lines }
        requires cut { IsCut (is_equality kind) (map (product row.now) self.old.rays) self.old.rays
            (cone_saturation self.old.taken self.old.rays) made }
        ensures ok { OnOk result (IsTakenIn self.old (record { row = row.now; equal = is_equality kind }) self.new) }
        ensures unchanged { OnErr result (self.new ≡ self.old) }
    {
        let Cut {
            gone,
            rays: mut new_rays,
            tight,
            more,
        } = made;
        self.rays.reserve(new_rays.len())?;
        self.taken.push_copy(row, kind)?;
        match self.saturation.exchange(more, &tight, &gone) {
            Ok(()) => {
                let _ = self.rays.append(&mut new_rays);
                remove_marked(&mut self.rays, &gone);
                Ok(())
            }
            Err(_) => {
                self.taken.pop();
                Err(AllocError)
            }
        }
    }
}

/// The cone of the points of n dimensions: the positivity row, which says that column 0 is at least 0, is added.
pub fn positive_cone(alloc: Global, n: usize) -> Result<Cone, AllocError>
    requires { n < too_many_dimensions }
    ensures dims { IfOk result (λ cone. cone.dims ≡ n) }
    ensures taken { IfOk result (λ cone. cone.taken ≡ inequality (positivity n) ∷ []) }
{
    let mut cone = Cone::whole(alloc, n)?;
    let positivity = unit(alloc, n, 0)?;
    // all numbers there are 0, 1 or -1, and there is one ray, so nothing exceeds a limit
    match cone.add_row(&positivity, ConKind::Ge) {
        Ok(()) => Ok(cone),
        Err(ConeError::Memory) => Err(AllocError),
        Err(ConeError::Strained(_)) => unreachable!(),
    }
}
