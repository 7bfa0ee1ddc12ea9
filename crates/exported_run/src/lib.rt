// The claim about every list of exported calls.
#![tactic(auto)]

ghost use Rattle.exported_run.specs.Calls.{EveryList};

// Does nothing, and ensures the claim.
pub fn every_list()
    ensures { EveryList }
{}
