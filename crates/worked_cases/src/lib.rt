// Worked cases of document 01 by hand, in its order, beside those of the crates that they speak of: a crate of its own, so that wrong answers tried on those crates cost no more time.

#![tactic(auto)]
