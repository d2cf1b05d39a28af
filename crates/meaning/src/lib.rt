// The definitions of document 01 stand in specs/; here is the one type that they share with the code.

#![tactic(auto)]

// An entry of an operator: "(variable, before, after)".
#[derive(Clone, Copy)]
pub struct Entry {
    pub variable: usize,
    pub before: usize,
    pub after: usize,
}
