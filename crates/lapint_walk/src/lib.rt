// The assignment's walk over whole numbers (document 02, 2.3): what a cheapest pairing is and why the walk gives one (specs/, proofs/).
#![tactic(auto)]

ghost use Rattle.lapint_walk.specs.Example.{StartValue};

// Does nothing, and ensures that with the start value of the f64s the walk would not be cheapest.
pub fn start_value()
    ensures { StartValue }
{}
