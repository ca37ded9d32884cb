// Arrays of n by n cells: encoding, taking the message out, the look-up of a row, and decoding.
#![tactic(auto)]

pub mod encoding; // encode
pub mod extraction; // extract
pub mod rows; // the look-up of a row
pub mod refusals; // the tests of the calls
pub mod packing; // the rows of an array, packed in words
mod halves; // the row half and the column half
mod iterations; // the iterations of a decoding
pub mod report; // what is told of the array that a decoding leaves
pub mod decoding; // the decoding of an array whose form is known
pub mod entry; // decode, for a caller outside
