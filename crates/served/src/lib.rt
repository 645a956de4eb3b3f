// What a service answers its caller: how many bytes were written to the front of the lent output, or a refusal.
#![tactic(auto)]

// A refusal's number and place, both of document 01. The number stays a number: every contract equates it to 01's.
#[derive(Clone, Copy)]
pub struct Refusal {
    pub number: u8,
    pub place: usize,
}

// Why a conversion put no text at the front of the room that it was lent: a refusal, or the room or a table is too small for it: each service says when.
#[derive(Clone, Copy)]
pub enum Unmade {
    Refused(Refusal),
    Full,
}
