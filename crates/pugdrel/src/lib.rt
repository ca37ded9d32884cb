// The calls for callers in C and Rust: plain numbers and lent slices, and nothing asked of either. The crate `pugdrel_c` exports them
// as a static library.
#![tactic(auto)]

pub mod reports; // the report that a call writes its numbers to
pub mod arrays; // decode, encode, extract, the look-up of a row
pub mod lines; // one word or line
pub mod sheets; // the text form of an array
pub mod files; // a sheet in blocks
pub mod loads; // a sheet from a seed
pub mod versions; // the version of the library
