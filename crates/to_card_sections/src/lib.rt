// The lines of a card from JSON, section by section: definitions and their law.

#![tactic(auto)]
