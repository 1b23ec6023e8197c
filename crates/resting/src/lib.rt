// No code: laws on what the bounds and marks of a state lack to the horizon.
#![tactic(auto)]
