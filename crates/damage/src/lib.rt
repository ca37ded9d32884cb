// Inputs made by chance, for the test programs: sent lines, arrays and files, and damage to them.
#![tactic(auto)]

pub mod chance; // numbers drawn by chance
pub mod lines; // wrong and unsure cells of a line
pub mod arrays; // sent arrays, and kinds of damage to them
pub mod files; // sheets in blocks, and damage to their files
