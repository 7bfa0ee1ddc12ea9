// Document 01's marked cases ('Checks at the edges', P), settled by the prover as a set.
#![tactic(auto)]

ghost use Rattle.cases.specs.Cases.{Each, Cases};

// Does nothing, and ensures that every marked case holds.
pub fn marked_cases()
    ensures { Each Cases }
{}
