// What a call of the stream gives: definitions alone.

#![tactic(auto)]
