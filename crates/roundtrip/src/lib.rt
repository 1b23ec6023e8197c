// Valid bytes are the bytes of sound states: laws alone, in proofs/.
#![tactic(auto)]
