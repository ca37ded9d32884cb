// Sheets in blocks: a sheet of degree 6 as the recorder keeps it, in three blocks of 512 bytes.
#![tactic(auto)]

mod sums; // the two sums of a block
mod cells; // four cells in a byte, and back
mod reading; // one pass over a file: its cells, and what is wrong with it
mod writing; // one pass over the cells: the file
pub mod entry; // the reader and the writer, for a caller outside
