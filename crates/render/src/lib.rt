// Plan text written: the text of a plan, and that reading gives it back. Definitions and laws alone, in specs/ and proofs/.
#![tactic(auto)]
