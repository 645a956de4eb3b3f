// The lines of a card with their classes, as the writers of the JSON's sections are lent them.
#![tactic(auto)]

// Unfolded bytes, where each line begins in them (and the last one ends), the number of each line's class, and how many lines there are.
#[derive(Clone, Copy)]
pub struct ClassedLines<'a> {
    pub scratch: &'a [u8],
    pub starts: &'a [usize],
    pub codes: &'a [u8],
    pub count: usize,
}
