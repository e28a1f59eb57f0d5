//! Both canonical lists of a polyhedron.

ghost use Rattle.std.specs.List.{Contains};
ghost use Rattle.std.specs.Prelude.{◌≡◌, ◌∷◌, ◌++◌, ◌<◌, ◌≤◌, [], length, drop, IfOk, IfSome, IfNone, ◌≢◌, take, OnOk};
ghost use Rattle.lra_description_pair.specs.Crates.lra_linear_spec.ConeStrain.{row_limit};
ghost use Rattle.lra_description_pair.specs.Crates.lra_linear_spec.Descriptions.{AreGenerators, Con, Gen, inequality};
ghost use Rattle.lra_description_pair.specs.Crates.lra_linear_spec.OperationStrain.{with_positivity};
ghost use Rattle.lra_description_pair.specs.Crates.lra_linear_spec.Points.{IsEmptySet};
ghost use Rattle.lra_description_pair.specs.Crates.lra_linear_spec.Polyhedra.{IsPolyhedron, IsPolyhedronOf, falsity};
ghost use Rattle.lra_description_pair.specs.Crates.lra_linear_spec.Representable.{KeepsLimit};
ghost use Rattle.lra_description_pair.specs.Crates.lra_systems.Dimensions.{too_many_dimensions};
ghost use Rattle.lra_description_pair.specs.Crates.lra_systems.LinearSystems.{constraints, generators, FitKinds};
ghost use Rattle.lra_cone.specs.Cones.{IsCone};
ghost use Rattle.lra_description_pair.specs.Crates.lra_linear_spec.declared.Cause as told;
ghost use Rattle.lra_description_pair.specs.Crates.lra_linear_spec.declared.GenKind.TheVariants.{Point};
ghost use Rattle.lra_description_pair.specs.OwnLists.{IsOwnCause, IsOwnList, IsOwnLoss, IsPositive, TellsOwnLoss};
ghost use Rattle.lra_description_pair.specs.OwnLists.{TurnsTo, columns_of};
ghost use Rattle.lra_description_pair.specs.TakenPoints.{AreTaken, IsMadeOfPoints, IsOfFirst, IsOfPoints, most_kept};
ghost use Rattle.lra_description_pair.specs.TriedRows.{IsMadeOf, IsOfTried, StrainsWhenTried};
ghost use Rattle.lra_description_pair.specs.{KeptRows.IsOfSome, Made.IsMadeOfGenerators, Made.IsMadeOfRows};
ghost use Rattle.lra_descriptions.specs.ShownLists.{ShowsConstraints, ShowsGenerators};
ghost use Rattle.lra_descriptions.specs.Tightness.{saturation_of, tight_matrix};

use crate::own::{MarkedOwn, limit_own_list};
use crate::valid::valid_list;
use lra_cone::{Cause, ConSys, Cone, Conversion, Loss, positive_cone, take_rows};
use lra_descriptions::{
    BitRow, GenSys, KnownConstraints, KnownGenerators, SatMatrix, TOO_MANY_DIMENSIONS, dual_rows,
    generator_list, has_point, known_constraints, known_generators, nothing, unit,
};
use std::alloc::{AllocError, Global};
use std::marker::Model;

/// A closed polyhedron by its canonical constraints and its canonical generators, and which of the ones are tight at
/// which of the others.
pub struct DescriptionPair {
    rows: ConSys,
    by_generators: GenSys,
    saturation: SatMatrix,
}

impl Drop for DescriptionPair {
    fn drop(self) {
        let DescriptionPair {
            rows: _,
            by_generators: _,
            saturation: _,
        } = self;
    }
}

impl Model for DescriptionPair {
    ghost use Rattle.std.specs.Prelude.{◌≡◌};
    ghost use Rattle.lra_description_pair.specs.Crates.lra_linear_spec.Polyhedra.{Polyhedron, IsPolyhedron};
    ghost use Rattle.lra_description_pair.specs.Crates.lra_linear_spec.Representable.{KeepsLimit};
    ghost use Rattle.lra_description_pair.specs.Crates.lra_systems.LinearSystems.{constraints, generators, FitKinds};
    ghost use Rattle.lra_descriptions.specs.Tightness.{saturation_of};

    ghost Value = { Polyhedron };

    ghost view = { λ s.
        record { dims = s.rows.dims; rows = constraints s.rows; generators = generators s.by_generators } };

    ghost invariant = { λ s.
        IsPolyhedron (record { dims = s.rows.dims; rows = constraints s.rows; generators = generators s.by_generators })
        × (s.by_generators.dims ≡ s.rows.dims) × FitKinds s.by_generators.rows s.by_generators.kinds
        × KeepsLimit
        (record { dims = s.rows.dims; rows = constraints s.rows; generators = generators s.by_generators })
        × (s.saturation ≡ saturation_of (constraints s.rows) (generators s.by_generators)) };
}

impl DescriptionPair {
    /// The number of dimensions.
    pub fn dims(&self) -> usize
        ensures { result ≡ self.now.dims }
    {
        self.rows.dims()
    }

    /// The constraints, in canonical order.
    pub fn rows(&self) -> &ConSys
        ensures dims { result.now.dims ≡ self.now.dims }
        ensures rows { constraints result.now ≡ self.now.rows }
        ensures canonical { IsPolyhedron self.now }
        ensures limit { KeepsLimit self.now }
    {
        &self.rows
    }

    /// The points, rays and lines, in canonical order; none if there is no point.
    pub fn generators(&self) -> &GenSys
        ensures dims { result.now.dims ≡ self.now.dims }
        ensures generators { generators result.now ≡ self.now.generators }
        ensures kinds { FitKinds result.now.rows result.now.kinds }
        ensures canonical { IsPolyhedron self.now }
        ensures limit { KeepsLimit self.now }
    {
        &self.by_generators
    }

    /// Both lists, handed on: the constraints and the generators; and which of the ones are tight at which of the
    /// others.
    pub fn into_parts(self) -> (ConSys, GenSys, SatMatrix)
        ensures dims { result.0.dims ≡ self.dims }
        ensures rows { constraints result.0 ≡ self.rows }
        ensures generator_dims { result.1.dims ≡ self.dims }
        ensures generators { generators result.1 ≡ self.generators }
        ensures kinds { FitKinds result.1.rows result.1.kinds }
        ensures saturation { result.2 ≡ saturation_of (constraints result.0) (generators result.1) }
        ensures canonical { IsPolyhedron self }
        ensures limit { KeepsLimit self }
    {
        let DescriptionPair {
            rows,
            by_generators,
            saturation,
        } = self;
        (rows, by_generators, saturation)
    }
}

// The polyhedron without a point.
fn empty(alloc: Global, n: usize) -> Result<DescriptionPair, AllocError>
    requires { n < too_many_dimensions }
    ensures dims { IfOk result (λ p. p.dims ≡ n) }
    ensures rows { IfOk result (λ p. p.rows ≡ inequality (falsity n) ∷ []) }
    ensures generators { IfOk result (λ p. p.generators ≡ []) }
{
    let rows = nothing(alloc, n)?;
    let by_generators = GenSys::new(alloc, n);
    let bits = BitRow::new(alloc, 0)?;
    let mut saturation = SatMatrix::new(alloc, 0);
    saturation.add_row(bits)?;
    Ok(DescriptionPair {
        rows,
        by_generators,
        saturation,
    })
}

/// All points of n dimensions.
pub fn universe(alloc: Global, n: usize) -> Result<DescriptionPair, AllocError>
    requires { n < too_many_dimensions }
    ensures { IfOk result (IsPolyhedronOf n (Con [])) }
{
    let cone = positive_cone(alloc, n)?;
    let generators = generator_list(alloc, n, cone.lines(), cone.rays())?;
    let rows = ConSys::new(alloc, n);
    let kinds = generators.kinds();
    let saturation = SatMatrix::new(alloc, kinds.len());
    Ok(DescriptionPair {
        rows,
        by_generators: generators,
        saturation,
    })
}

// The cone's generators, and at which of these rows each is tight, if the matrix says at which of the cone's rays
// and lines each row is.
fn show_generators(
    alloc: Global,
    n: usize,
    cone: &Cone,
    matrix: &SatMatrix,
) -> Result<KnownGenerators, AllocError>
    requires small { n < too_many_dimensions }
    requires dims { cone.now.dims ≡ n }
    requires width { matrix.now.width ≡ length (columns_of cone.now) }
    ensures cone { IsCone cone.now }
    ensures dims { IfOk result (λ known. known.list.dims ≡ n) }
    ensures shown { IfOk result (λ known. ShowsGenerators cone.now.lines cone.now.rays known.list) }
    ensures matrix { IfOk result (λ known.
        TurnsTo cone.now matrix.now known.list.rows known.matrix) }
{
    let (lines, rays) = (cone.lines(), cone.rays());
    let columns = matrix.transposed(alloc)?;
    let _width = columns.width(); // fact: the rows of the matrix are equally long
    known_generators(alloc, n, lines, rays, columns)
}

// What `show_generators` gives, of the cone's constraints.
fn show_constraints(
    alloc: Global,
    n: usize,
    cone: &Cone,
    matrix: &SatMatrix,
) -> Result<KnownConstraints, AllocError>
    requires small { n < too_many_dimensions }
    requires dims { cone.now.dims ≡ n }
    requires width { matrix.now.width ≡ length (columns_of cone.now) }
    ensures cone { IsCone cone.now }
    ensures dims { IfOk result (λ known. known.list.dims ≡ n) }
    ensures shown { IfOk result (λ known.
        ShowsConstraints n cone.now.lines cone.now.rays known.list) }
    ensures matrix { IfOk result (λ known.
        TurnsTo cone.now matrix.now known.list.rows known.matrix) }
{
    let (lines, rays) = (cone.lines(), cone.rays());
    let columns = matrix.transposed(alloc)?;
    let _width = columns.width(); // fact: the rows of the matrix are equally long
    let positivity = unit(alloc, n, 0)?;
    known_constraints(alloc, lines, rays, columns, &positivity, n)
}

// The polyhedron of the rows that were added to the cone, of which this is the own list.
fn of_rows(
    alloc: Global,
    n: usize,
    cone: &Cone,
    own: MarkedOwn,
) -> Result<DescriptionPair, AllocError>
    requires small { n < too_many_dimensions }
    requires dims { cone.now.dims ≡ n }
    requires positive { IsPositive n cone.now.taken }
    requires own { IsOwnList cone.now own.lines.items own.rays.items }
    requires few { length own.rays.items ≤ row_limit }
    requires matrix { own.saturation ≡ tight_matrix (columns_of cone.now) own.rays.items }
    ensures { IfOk result (IsPolyhedronOf n (Con (drop 1 cone.now.taken))) }
{
    let _lines = cone.lines(); // fact: lines and rays are those of the rows (`IsCone`)
    let positivity = unit(alloc, n, 0)?;
    let MarkedOwn {
        lines,
        rays,
        saturation,
    } = own;
    let listed = known_constraints(alloc, &lines, &rays, saturation, &positivity, n)?;
    let shown = show_generators(alloc, n, cone, &listed.matrix)?;
    // fact: in both lists as many kinds as rows
    let (_kinds, _column_kinds) = (listed.list.kinds(), shown.list.kinds());
    if shown.list.rows().is_empty() {
        let pair = empty(alloc, n)?;
        return Ok(pair);
    }
    let turned = shown.matrix.transposed(alloc)?;
    let _width = turned.width(); // fact: the rows of the matrix are equally long
    let KnownConstraints {
        list: rows,
        matrix: _,
    } = listed;
    let KnownGenerators {
        list: by_generators,
        matrix: _,
    } = shown;
    Ok(DescriptionPair {
        rows,
        by_generators,
        saturation: turned,
    })
}

// The polyhedron of the generators that were added to the cone, some of them points, of which this is the own list.
fn of_generators(
    alloc: Global,
    n: usize,
    cone: &Cone,
    own: MarkedOwn,
) -> Result<DescriptionPair, AllocError>
    requires small { n < too_many_dimensions }
    requires dims { cone.now.dims ≡ n }
    requires columns { AreGenerators cone.now.taken }
    requires some { ¬ (IsEmptySet n (Gen cone.now.taken)) }
    requires own { IsOwnList cone.now own.lines.items own.rays.items }
    requires few { length own.rays.items ≤ row_limit }
    requires matrix { own.saturation ≡ tight_matrix (columns_of cone.now) own.rays.items }
    ensures { IfOk result (IsPolyhedronOf n (Gen cone.now.taken)) }
{
    let _lines = cone.lines(); // fact: lines and rays are those of the rows (`IsCone`)
    let MarkedOwn {
        lines,
        rays,
        saturation,
    } = own;
    let listed = known_generators(alloc, n, &lines, &rays, saturation)?;
    let shown = show_constraints(alloc, n, cone, &listed.matrix)?;
    // fact: in both lists as many kinds as rows
    let (_column_kinds, _kinds) = (listed.list.kinds(), shown.list.kinds());
    let KnownGenerators {
        list: by_generators,
        matrix: _,
    } = listed;
    let KnownConstraints {
        list: rows,
        matrix: turned,
    } = shown;
    Ok(DescriptionPair {
        rows,
        by_generators,
        saturation: turned,
    })
}

// What is reported if there is no own list: the last of the rows added stands for them.
fn find_own_loss(alloc: Global, cone: &Cone, cause: Cause) -> Result<Loss, AllocError>
    requires { 0 < length cone.now.taken }
    ensures cone { IsCone cone.now }
    ensures loss { IfOk result (IsOwnLoss cone.now cause) }
{
    let taken = cone.taken();
    let (rows, kinds) = (taken.rows(), taken.kinds());
    let last = rows.len() - 1;
    Loss::new(alloc, taken, &rows[last], kinds[last], cause)
}

// Says that there is no own list, after what was lost before.
fn push_own_loss(
    losses: &mut Vec<Loss>,
    alloc: Global,
    cone: &Cone,
    cause: Cause,
) -> Result<(), AllocError>
    requires { 0 < length cone.now.taken }
    ensures cone { IsCone cone.now }
    ensures loss { OnOk result (TellsOwnLoss cone.now cause losses.old.items losses.new.items) }
{
    losses.push(find_own_loss(alloc, cone, cause)?)?;
    Ok(())
}

// The polyhedron of the rows that were added to the cone, after these losses; all points if a number passes in
// its canonical constraints, or there are too many.
fn of_taken_rows(
    alloc: Global,
    n: usize,
    cone: &Cone,
    mut losses: Vec<Loss>,
) -> Result<(DescriptionPair, Vec<Loss>), AllocError>
    requires small { n < too_many_dimensions }
    requires dims { cone.now.dims ≡ n }
    requires positive { IsPositive n cone.now.taken }
    ensures { IfOk result (λ r. IsMadeOf n cone.now losses.items r.0 r.1.items) }
{
    match limit_own_list(alloc, cone)? {
        Ok(own) => {
            let pair = of_rows(alloc, n, cone, own)?;
            Ok((pair, losses))
        }
        Err(cause) => {
            push_own_loss(&mut losses, alloc, cone, cause)?;
            let pair = universe(alloc, n)?;
            Ok((pair, losses))
        }
    }
}

/// The polyhedron of the constraints that were added to a cone after the positivity row, and of further ones that
/// are added after them; and what was lost of these, as by `from_rows`.
pub fn from_cone(
    alloc: Global,
    start: Cone,
    rows: &ConSys,
) -> Result<(DescriptionPair, Vec<Loss>), AllocError>
    requires small { rows.now.dims < too_many_dimensions }
    requires dims { start.dims ≡ rows.now.dims }
    requires positive { IsPositive rows.now.dims start.taken }
    ensures becomes { IfOk result (λ r.
        IsMadeOfRows rows.now.dims (drop 1 start.taken ++ constraints rows.now) r.0 r.1.items) }
    ensures some { IfOk result (λ r. IsOfSome rows.now.dims (drop 1 start.taken ++ constraints rows.now) r.0) }
    ensures tried { IfOk result (λ r. IsOfTried rows.now.dims start.taken (constraints rows.now) r.0 r.1.items) }
{
    let n = rows.dims();
    let conversion = take_rows(alloc, start, rows)?;
    let Conversion {
        cone,
        kept: _,
        losses,
    } = conversion;
    of_taken_rows(alloc, n, &cone, losses)
}

/// The polyhedron of the constraints, and what was lost: rows with which a number passes the range, or there are too
/// many generators, are left out; if a number passes in the canonical constraints, or there are too many, all are.
/// Without a loss it has the points of the constraints, else at least those.
pub fn from_rows(alloc: Global, rows: &ConSys) -> Result<(DescriptionPair, Vec<Loss>), AllocError>
    ensures becomes { IfOk result (λ r. IsMadeOfRows rows.now.dims (constraints rows.now) r.0 r.1.items) }
    ensures some { IfOk result (λ r. IsOfSome rows.now.dims (constraints rows.now) r.0) }
    ensures tried { IfOk result (λ r. IsOfTried rows.now.dims (with_positivity rows.now.dims []) (constraints rows.now)
        r.0 r.1.items) }
{
    let n = rows.dims();
    if n >= TOO_MANY_DIMENSIONS {
        return Err(AllocError);
    }
    from_cone(alloc, positive_cone(alloc, n)?, rows)
}

// At most so many constraints are kept after a loss: what is generated of them stays small.
const MOST_KEPT: usize = 64;

// The first constraints of the list, at most as many as are kept after a loss.
fn first_rows(alloc: Global, list: &ConSys) -> Result<ConSys, AllocError>
    ensures dims { IfOk result (λ kept. kept.dims ≡ list.now.dims) }
    ensures first { IfOk result (λ kept. constraints kept ≡ take most_kept (constraints list.now)) }
{
    let n = list.dims();
    if n >= TOO_MANY_DIMENSIONS {
        return Err(AllocError);
    }
    let (rows, kinds) = (list.rows(), list.kinds());
    let count = if rows.len() < MOST_KEPT {
        rows.len()
    } else {
        MOST_KEPT
    };
    let mut kept = ConSys::new(alloc, n);
    for place in 0..count {
        kept.push_copy(&rows[place], kinds[place])?;
    }
    Ok(kept)
}

// The polyhedron of constraints that hold at each of the points, after a loss: of the first of them.
fn enclose_points(
    alloc: Global,
    list: &ConSys,
    losses: Vec<Loss>,
) -> Result<(DescriptionPair, Vec<Loss>), AllocError>
    ensures losses { IfOk result (λ r. r.1.items ≡ losses.items) }
    ensures first { IfOk result (λ r. IsOfFirst list.now.dims (constraints list.now) r.0) }
{
    let kept = first_rows(alloc, list)?;
    let (pair, _) = from_rows(alloc, &kept)?;
    Ok((pair, losses))
}

// The polyhedron of the generators that were added to the cone, some of them points; if a number passes in the
// canonical ones, or there are too many, that of constraints that hold at each of them.
fn of_taken_generators(
    alloc: Global,
    n: usize,
    cone: &Cone,
    list: &ConSys,
) -> Result<(DescriptionPair, Vec<Loss>), AllocError>
    requires small { n < too_many_dimensions }
    requires dims { cone.now.dims ≡ n }
    requires list_dims { list.now.dims ≡ n }
    requires columns { AreGenerators cone.now.taken }
    requires some { ¬ (IsEmptySet n (Gen cone.now.taken)) }
    ensures { IfOk result (λ r. IsMadeOfPoints n cone.now (constraints list.now) r.0 r.1.items) }
{
    let mut losses = Vec::new(alloc);
    match limit_own_list(alloc, cone)? {
        Ok(own) => {
            let pair = of_generators(alloc, n, cone, own)?;
            Ok((pair, losses))
        }
        Err(cause) => {
            push_own_loss(&mut losses, alloc, cone, cause)?;
            enclose_points(alloc, list, losses)
        }
    }
}

// The generators, some of them points, added to a cone, and constraints that hold at each of them.
fn take_points(alloc: Global, given: &GenSys) -> Result<(Conversion, ConSys), AllocError>
    requires small { given.now.dims < too_many_dimensions }
    requires kinds { FitKinds given.now.rows given.now.kinds }
    requires many { length given.now.kinds ≡ length given.now.rows }
    requires point { Contains given.now.kinds Point }
    ensures { IfOk result (λ r.
        AreTaken given.now.dims (generators given.now) r.1 r.0.cone r.0.losses.items) }
{
    let n = given.dims();
    let rows = dual_rows(alloc, given)?;
    let conversion = take_rows(alloc, Cone::whole(alloc, n)?, &rows)?;
    let list = valid_list(alloc, &conversion, &rows)?;
    Ok((conversion, list))
}

// The polyhedron of generators, some of them points, and what was lost.
fn from_points(alloc: Global, given: &GenSys) -> Result<(DescriptionPair, Vec<Loss>), AllocError>
    requires small { given.now.dims < too_many_dimensions }
    requires kinds { FitKinds given.now.rows given.now.kinds }
    requires many { length given.now.kinds ≡ length given.now.rows }
    requires point { Contains given.now.kinds Point }
    ensures { IfOk result (λ r. IsOfPoints given.now.dims (generators given.now) r.0 r.1.items) }
{
    let n = given.dims();
    let (conversion, list) = take_points(alloc, given)?;
    let Conversion {
        cone,
        kept: _,
        losses,
    } = conversion;
    if losses.is_empty() {
        of_taken_generators(alloc, n, &cone, &list)
    } else {
        enclose_points(alloc, &list, losses)
    }
}

// The polyhedron of the generators that were added to the cone, some of them points; none if a number passes in
// the canonical ones, or there are too many.
fn convert_own_list(
    alloc: Global,
    n: usize,
    cone: &Cone,
) -> Result<Option<DescriptionPair>, AllocError>
    requires small { n < too_many_dimensions }
    requires dims { cone.now.dims ≡ n }
    requires columns { AreGenerators cone.now.taken }
    requires some { ¬ (IsEmptySet n (Gen cone.now.taken)) }
    ensures pair { IfOk result (λ pair. IfSome pair (IsPolyhedronOf n (Gen cone.now.taken))) }
    ensures none { IfOk result (λ pair. IfNone pair ((cause : told.Cause) × IsOwnCause cone.now cause)) }
{
    match limit_own_list(alloc, cone)? {
        Ok(own) => {
            let pair = of_generators(alloc, n, cone, own)?;
            Ok(Some(pair))
        }
        Err(_) => Ok(None),
    }
}

/// The polyhedron of the generators that were added to a cone, and of further ones that are added after them, some
/// of all of them points. None if one of these isn't added, or if a number passes in the canonical generators,
/// or there are too many.
pub fn with_generators(
    alloc: Global,
    start: Cone,
    more: &GenSys,
) -> Result<Option<DescriptionPair>, AllocError>
    requires small { more.now.dims < too_many_dimensions }
    requires dims { start.dims ≡ more.now.dims }
    requires kinds { FitKinds more.now.rows more.now.kinds }
    requires columns { AreGenerators start.taken }
    requires some { ¬ (IsEmptySet more.now.dims (Gen (start.taken ++ generators more.now))) }
    ensures pair { IfOk result (λ pair. IfSome pair
        (IsPolyhedronOf more.now.dims (Gen (start.taken ++ generators more.now)))) }
    ensures none { IfOk result (λ pair. IfNone pair
        (StrainsWhenTried more.now.dims start.taken (generators more.now))) }
{
    let n = more.dims();
    let rows = dual_rows(alloc, more)?;
    let conversion = take_rows(alloc, start, &rows)?;
    let Conversion {
        cone,
        kept: _,
        losses,
    } = conversion;
    if !losses.is_empty() {
        return Ok(None);
    }
    let pair = convert_own_list(alloc, n, &cone)?;
    Ok(pair)
}

/// The polyhedron of the generators, and what was lost. If one of them isn't added, those of the constraints that
/// are valid on all of them are taken, as when a number passes in the canonical generators, or there are too many.
/// Without a loss it has the points of the generators, else at least those.
pub fn from_generators(
    alloc: Global,
    given: &GenSys,
) -> Result<(DescriptionPair, Vec<Loss>), AllocError>
    requires { FitKinds given.now.rows given.now.kinds }
    ensures becomes { IfOk result (λ r. IsMadeOfGenerators given.now.dims (generators given.now) r.0 r.1.items) }
    ensures made { IfOk result (λ r. r.1.items ≢ [] →
        IsOfPoints given.now.dims (generators given.now) r.0 r.1.items) }
{
    let n = given.dims();
    if n >= TOO_MANY_DIMENSIONS {
        return Err(AllocError);
    }
    if !has_point(given.kinds()) {
        let pair = empty(alloc, n)?;
        return Ok((pair, Vec::new(alloc)));
    }
    from_points(alloc, given)
}
