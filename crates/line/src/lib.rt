// vCard lines: classes, physical lines, unfolding, the line grammar, TEXT, folding. Definitions and laws; nothing here knows of JSON.

#![tactic(auto)]
