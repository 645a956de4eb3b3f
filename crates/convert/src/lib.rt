// Document 01's conversion: which line converts, the card model, both results, both normal forms, the refusals. Definitions and laws.

#![tactic(auto)]
