//! The labels among a `switch`'s arms.

ghost use Rattle.std.specs.{List.list_any, Prelude.◌≡◌, Prelude.◌||◌, Prelude.map};
ghost use Rattle.lra_operations.specs.Crates.lra_base.CaseLabels.{is_same_case};
ghost use Rattle.lra_operations.specs.Crates.lra_base.declared.case_labels.CaseLabel.TheVariants.{Default};
ghost use Rattle.lra_operations.specs.{Tree.Arms, Tree.entries_of, TreeViews.arm_view, TreeViews.arms_of};

use crate::Arm;
use lra_program::CaseLabel;

fn names_default(label: &CaseLabel) -> bool
    ensures { result ≡ is_same_case Default label.now }
{
    match label {
        CaseLabel::Case(_) => false,
        CaseLabel::Default => true,
    }
}

/// Whether the arm is the label `default`.
fn is_default(arm: &Arm) -> bool
    ensures { (behind : Arms) → list_any (is_same_case Default) (entries_of
        (arm_view arm.now behind)) ≡
        (result || list_any (is_same_case Default) (entries_of behind)) }
{
    match arm {
        Arm::Entry(label) => names_default(label),
        Arm::Tree(_) => false,
    }
}

/// Whether one of the labels is `default`.
pub fn any_default(arms: &[Arm]) -> bool
    ensures { result ≡ list_any (is_same_case Default)
        (entries_of (arms_of (map arm_view arms.now))) }
{
    let mut left = arms;
    'arms: while let Some((arm, behind)) = left.split_first() {
        if is_default(arm) {
            return true;
        }
        left = behind;
    }
    false
}
