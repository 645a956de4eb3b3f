// Demands 1 and 2 of the two services' own contracts: theorems only (proofs/Demands.antt).

#![tactic(auto)]
