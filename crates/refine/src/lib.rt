// The steps on raw records are the machine's: laws alone, in proofs/.
#![tactic(auto)]
