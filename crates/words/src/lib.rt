// Bits and bytes in machine words: packed words, gathered from bytes and spread over them, kept in grids and transposed, summed.
// Nothing here knows of codes.
#![tactic(auto)]

pub mod word; // a packed word, with what is made of such words; no other module looks inside
pub mod bytes; // four or eight bytes at a time, to a number and back
pub mod copying; // one slice into another of its length
mod transpose; // 64 numbers become the numbers of their columns
mod zeros; // are all numbers 0?
