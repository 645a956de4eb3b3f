// JSON as RFC 8259 has it: trees, grammar, reader, compact writing, look-up. Definitions and laws; nothing here knows of vCard.

#![tactic(auto)]
