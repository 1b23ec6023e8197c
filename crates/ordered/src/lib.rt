// No code: a trace in the order that `./order` makes is refused nothing.
#![tactic(auto)]
