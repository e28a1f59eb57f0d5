//! Membership of a point in the solutions of constraints.

ghost use Rattle.std.specs.List.{All};
ghost use Rattle.std.specs.Prelude.{◌≡◌, ◌↔◌, IsTrue, suc, pos, ◌<ℤ◌, ◌∷◌, length};
ghost use Rattle.lra_systems.specs.LinearSystems.{rows_by_kind, constraints};
ghost use Rattle.lra_systems.specs.Membership.{DecidesMembership, TellsMembership};
ghost use Rattle.lra_linear_spec.specs.Kinds.{is_equality};

use crate::system::ConSys;
use lra_linear_spec::ConKind;
use lra_row::Row;

/// Whether a point meets all constraints: the place, from 0, of the first that fails, or whose product with the point
/// passes the range, decides.
#[derive(Clone, Copy, Debug, PartialEq, Eq)]
pub enum MembershipAnswer {
    Yes,
    No(usize),
    Wide(usize),
}

fn first_deciding(rows: &[Row], kinds: &[ConKind], num: &[i128], den: i128) -> MembershipAnswer
    requires kinds { length kinds.now ≡ length rows.now }
    requires widths { All (λ r. length r ≡ suc (length num.now)) rows.now }
    ensures { DecidesMembership (rows_by_kind is_equality rows.now kinds.now) (den ∷ num.now)
        result }
{
    for (place, row) in rows.iter().enumerate() {
        match row.value_at(den, num) {
            Ok(product) => {
                if !kinds[place].accepts(product) {
                    return MembershipAnswer::No(place);
                }
            }
            Err(_) => return MembershipAnswer::Wide(place),
        }
    }
    MembershipAnswer::Yes
}

impl ConSys {
    /// Whether the constraints hold at the point `num / den`: numerators of the coordinates, and their divisor, which
    /// is at least
    /// 1.
    #[tactic(auto, using(crate::proofs::Places::answer_tells))]
    pub fn holds_at(&self, num: &[i128], den: i128) -> MembershipAnswer
        requires coordinates { length num.now ≡ self.now.dims }
        requires divisor { pos 0 <ℤ den }
        ensures answer { DecidesMembership (constraints self.now) (den ∷ num.now) result }
        ensures membership { TellsMembership (constraints self.now) (den ∷ num.now) result }
    {
        first_deciding(self.rows(), self.kinds(), num, den)
    }
}
