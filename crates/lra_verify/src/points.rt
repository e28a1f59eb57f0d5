//! The points of a certificate, with their rows.

ghost use Rattle.std.specs.List.{All, starts_with};
ghost use Rattle.std.specs.Prelude.{◌≡◌, ◌≤◌, ◌<◌, ◌^◌, ◌++◌, length, map, codes, string_bytes, MatchOption, IfOk};
ghost use Rattle.std.specs.Prelude.{IfSome, nat_eq, true, false, option_map, suc};
ghost use Rattle.lra_verify.specs.Crates.lra_certificate_spec.Judged.{constraint_row, numbers_after, row_in, line_on};
ghost use Rattle.lra_verify.specs.Crates.lra_certificate_spec.Judged.{judged_rows, judged_state, judged_states};
ghost use Rattle.lra_verify.specs.Crates.lra_certificate_spec.Lines.{pieces_at, line_number_at, left_at, IsLineAt};
ghost use Rattle.lra_verify.specs.Crates.{lra_certificate_spec.CertificateText.point_text};
ghost use Rattle.lra_verify.specs.Crates.{lra_certificate_spec.Lines.is_row_line, lra_linear_spec.Kinds.is_equality};
ghost use Rattle.lra_verify.specs.Crates.{lra_program.Sites.Site, lra_script.Views.constraint_of};
ghost use Rattle.lra_operations.specs.TreeViews.{site_view};
ghost use Rattle.lra_certificate_lines.specs.LineViews.{IsJudgedAs};
ghost use Rattle.lra_verify.specs.PointViews.{rows_view, point_view, points_view, HaveDims};

use lra_certificate_lines::{
    ConKind, ConSys, Constraint, LineFault, Row, VerifyError, after_text, line_at, numbers_behind,
    refuse, take_line,
};
use lra_operations::Site;
use std::alloc::{AllocError, Global};

/// The rows of a point, and where the next line begins.
#[derive(Drop)]
struct PointRows {
    rows: ConSys,
    behind: usize,
}

/// What is said of a point, and where the next line begins.
#[derive(Drop)]
struct Point {
    state: Option<ConSys>,
    behind: usize,
}

/// What is said of each point, and where the next line begins: its rows, or none if it is empty.
#[derive(Drop)]
pub struct Points {
    pub states: Vec<Option<ConSys>>,
    pub behind: usize,
}

/// The row of this kind that the line spells, with so many numbers after this text.
fn row_behind(
    alloc: Global,
    line: &[u8],
    text: &[u8],
    kind: ConKind,
    width: usize,
) -> Result<Option<Constraint>, AllocError>
    ensures row { IfOk result (λ r. option_map constraint_of r ≡
        constraint_row (is_equality kind) (numbers_after text.now width line.now)) }
    ensures width { IfOk result (λ r. IfSome r (λ c. length c.row ≡ width)) }
{
    match numbers_behind(alloc, line, text, width)? {
        Some(numbers) => {
            let row = Row::from_slice(alloc, numbers.as_slice())?;
            Ok(Some(Constraint { row, kind }))
        }
        None => Ok(None),
    }
}

/// The row of a point with so many variables that a line spells.
fn row_in(alloc: Global, line: &[u8], live: usize) -> Result<Option<Constraint>, AllocError>
    requires { live < 2 ^ 31 }
    ensures row { IfOk result (λ r. option_map constraint_of r ≡ row_in live line.now) }
    ensures width { IfOk result (λ r. IfSome r (λ c. length c.row ≡ suc live)) }
{
    match row_behind(alloc, line, b"  =", ConKind::Eq, live + 1)? {
        Some(row) => Ok(Some(row)),
        None => row_behind(alloc, line, b"  >=", ConKind::Ge, live + 1),
    }
}

/// The line that begins here, if it is that of a row: one that begins with a space.
fn row_line(bytes: &[u8], at: usize) -> Option<&[u8]>
    requires { at ≤ length bytes.now }
    ensures { MatchOption result (is_row_line (line_on (pieces_at bytes.now at)) ≡ false)
        (λ line. IsLineAt bytes.now at line.now × (is_row_line (Some line.now) ≡ true)) }
{
    match line_at(bytes, at) {
        Some(line) if line.starts_with(b" ") => Some(line),
        _ => None,
    }
}

/// The rows of a point with so many variables: the lines that begin with a space.
fn take_rows(alloc: Global, bytes: &[u8], at: usize, live: usize) -> Result<PointRows, VerifyError>
    requires short { length bytes.now < 2 ^ 31 }
    requires place { at ≤ length bytes.now }
    requires live { live < 2 ^ 31 }
    ensures told { IsJudgedAs (rows_view bytes.now)
        (judged_rows live (line_number_at bytes.now at) (pieces_at bytes.now at)) result }
    ensures within { IfOk result (λ r. r.behind ≤ length bytes.now) }
    ensures live { IfOk result (λ r. r.rows.dims ≡ live) }
{
    let mut rows = ConSys::new(alloc, live);
    let mut behind = at;
    'rows: while let Some(line) = row_line(bytes, behind) {
        match row_in(alloc, line, live)? {
            Some(constraint) => {
                rows.push_copy(&constraint.row, constraint.kind)?;
                behind = behind + line.len() + 1;
            }
            None => return Err(refuse(bytes, behind, LineFault::BadLine)),
        }
    }
    Ok(PointRows { rows, behind })
}

/// The text of the line that begins a point.
fn point_text(alloc: Global, number: usize) -> Result<String, AllocError>
    ensures { IfOk result (λ text. string_bytes text ≡ point_text number) }
{
    format!(in alloc; "point {number}")
}

/// The text of the line of a point that is empty.
fn empty_text(alloc: Global, number: usize) -> Result<String, AllocError>
    ensures { IfOk result (λ text. string_bytes text ≡ point_text number ++ codes " empty") }
{
    format!(in alloc; "point {number} empty")
}

/// What is said of the point of this number, with so many variables.
fn take_point(
    alloc: Global,
    bytes: &[u8],
    at: usize,
    number: usize,
    live: usize,
) -> Result<Point, VerifyError>
    requires short { length bytes.now < 2 ^ 31 }
    requires place { at ≤ length bytes.now }
    requires live { live < 2 ^ 31 }
    ensures told { IsJudgedAs (point_view bytes.now)
        (judged_state number live (left_at bytes.now at)) result }
    ensures within { IfOk result (λ r. r.behind ≤ length bytes.now) }
    ensures live { IfOk result (λ r. IfSome r.state (λ rows. rows.dims ≡ live)) }
{
    let text = point_text(alloc, number)?;
    let empty = empty_text(alloc, number)?;
    if let Some(behind) = after_text(bytes, at, empty.as_bytes()) {
        return Ok(Point {
            state: None,
            behind,
        });
    }
    let next = take_line(bytes, at, text.as_bytes())?;
    let PointRows { rows, behind } = take_rows(alloc, bytes, next, live)?;
    Ok(Point {
        state: Some(rows),
        behind,
    })
}

/// What is said of each point, in order.
pub fn take_points(alloc: Global, bytes: &[u8], sites: &[Site]) -> Result<Points, VerifyError>
    requires short { length bytes.now < 2 ^ 31 }
    requires sites { length sites.now < 2 ^ 31 }
    requires live { All (λ s. s.live < 2 ^ 31) sites.now }
    ensures told { IsJudgedAs (points_view bytes.now)
        (judged_states 1 (map site_view sites.now) (left_at bytes.now 0)) result }
    ensures within { IfOk result (λ r. r.behind ≤ length bytes.now) }
    ensures count { IfOk result (λ r. length r.states.items ≡ length sites.now) }
    ensures dims { IfOk result (λ r. HaveDims (map site_view sites.now) r.states.items) }
{
    let mut states = Vec::new(alloc);
    let mut at = 0;
    for (index, site) in sites.iter().enumerate() {
        let Point { state, behind } = take_point(alloc, bytes, at, index + 1, site.live)?;
        states.push(state)?;
        at = behind;
    }
    Ok(Points { states, behind: at })
}
