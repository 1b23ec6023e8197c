// Every call keeps a sound state sound: laws alone, in proofs/.
#![tactic(auto)]
