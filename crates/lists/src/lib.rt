// Definitions and laws of lists alone: the crates above cite specs/ and proofs/.
#![tactic(auto)]
