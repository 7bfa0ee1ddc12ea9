// The book of a run and the claim about it, definitions and laws alone: what `run` says of the calls is said with these.
#![tactic(auto)]
