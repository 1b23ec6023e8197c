// No code: what is printed of the whole example of document 01, the count of visits.
#![tactic(auto)]
