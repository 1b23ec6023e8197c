// Cells of the machine as records of the layout, and back: definitions and laws alone, in specs/ and proofs/.
#![tactic(auto)]
