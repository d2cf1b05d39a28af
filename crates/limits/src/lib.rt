// The limits and offsets of the documents that several crates use, each under one name.

#![tactic(auto)]

// "v 1 to 64"
pub const LEAST_VARIABLES: usize = 1;

pub const MOST_VARIABLES: usize = 64;

// "d 1 to 64"
pub const LEAST_SIZE: usize = 1;

pub const MOST_SIZE: usize = 64;

// A partial task file: "Its sizes, 1 to 63, are the old ones".
pub const LEAST_PARTIAL_SIZE: usize = 1;

pub const MOST_PARTIAL_SIZE: usize = 63;

// "rows times columns, n, is 2" to 16: "and n 16"
pub const LEAST_SLOTS: usize = 2;

pub const MOST_SLOTS: usize = 16;

// "N may reach 32,768"
pub const MOST_FEATURES: usize = 32768;

// "W = N/64 rounded up", for the most features.
pub const MOST_WORDS: usize = MOST_FEATURES / 64;

// As many words as the atoms of the most variables, each of the most values, fill.
pub const ATOM_WORDS: usize = 64;

// "An operator is held as one record of its entries, at most 64."
pub const MOST_ENTRIES: usize = 64;

// Where the sizes begin: "v; v sizes; v start values; v goal values; W words of listed pairs".
pub const SIZES_AT: usize = 1;

// Room for the largest of these headers.
pub const HEADER_WORDS: usize = SIZES_AT + 3 * MOST_VARIABLES + MOST_WORDS;

// pair_fault: room for a pair and an operator's number, a word each.
pub const FAULT_WORDS: usize = 2;
