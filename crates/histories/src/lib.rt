// Histories of a lent buffer: demands 1 to 3 over the bytes. Definitions and theorems alone, in specs/ and proofs/.
#![tactic(auto)]
