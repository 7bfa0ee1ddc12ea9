// The claim about every list of calls.
#![tactic(auto)]

ghost use Rattle.run.specs.Run.{EveryRun};

// Does nothing, and ensures the claim.
pub fn every_run()
    ensures { EveryRun }
{}
