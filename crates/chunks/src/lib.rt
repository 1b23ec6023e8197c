// No code: a line read in a window of a trace is the line of the trace.
#![tactic(auto)]
