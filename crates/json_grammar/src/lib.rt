// Laws alone: the JSON reader accepts RFC 8259's grammar, and refuses at the first byte that no JSON can follow.

#![tactic(auto)]
