// What the C calls promise (specs/Promise.antt, which `thymebarrel` cites), and demands 1 to 3 of any functions that keep it (proofs/Demands.antt): no code.

#![tactic(auto)]
