// A fixed sample of generated inputs on which the definitions are held to the answers of the Rust baseline. Made by
// `tools/compare --count 50 --seed 20261115 --keep crates/compared/proofs`.

#![tactic(auto)]
