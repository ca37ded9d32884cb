// The text form of an array: from the bytes that the program `sheet` reads to the bytes that it prints.
#![tactic(auto)]

pub mod reading; // the first line, the tests of what is read, and the cells
pub mod turning; // characters and cells, turned into each other
pub mod writing; // the text that is printed
pub mod step; // the decoding between them
pub mod sheet; // what is printed for what is read; the entry
