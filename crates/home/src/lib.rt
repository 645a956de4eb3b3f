// The way home (demand 2): laws alone, from the definitions of the layers below.

#![tactic(auto)]
