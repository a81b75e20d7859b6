ghost use Rattle.strip_model.specs.Running.{Stay};

/// Where no rule is `unique`: while an action runs, its rows stay what they were at its start, whatever
/// else happens. Nothing runs here: the clause is the law.
#[tactic(auto, using(crate::proofs::JobsStay::stay))]
pub fn running_actions_stay()
    ensures { Stay }
{}
