// Demand 3 of the stream: theorems alone.

#![tactic(auto)]
