//! Laws: each of these does nothing, and its contract is the theorem.

ghost use Rattle.lra_path_disjuncts.specs.Disjuncts.{DisjunctsAreCases, DisjunctsAreMade, DisjunctsLead, WrittenLead};

/// The disjuncts of moves are what an iteration makes by these of a list of paths, where an action ends each path and a
/// join has the paths of both its disjuncts.
#[tactic(auto, using(crate::proofs::SideSteps::sides_made))]
pub fn disjuncts_are_made()
    ensures { DisjunctsAreMade }
{}

/// The disjuncts of moves are their cases: no other lists of actions, each as often, in another order.
#[tactic(auto, using(crate::proofs::SideSteps::disjuncts_are_cases))]
pub fn disjuncts_are_cases()
    ensures { DisjunctsAreCases }
{}

/// Moves may lead where one of their disjuncts leads.
#[tactic(auto, using(crate::proofs::SideSteps::disjuncts_lead))]
pub fn disjuncts_lead()
    ensures { DisjunctsLead }
{}

/// Operations lead a state to another one only if one of their lists of actions may.
#[tactic(auto, using(crate::proofs::WrittenSteps::written_lead))]
pub fn written_lead()
    ensures { WrittenLead }
{}
