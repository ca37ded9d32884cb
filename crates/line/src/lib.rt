// One line: packed in words, encoded, decoded within a distance and with erasures, and its outgoing messages.
#![tactic(auto)]

mod side; // which of the two filled words is meant
pub mod tally; // a value, and the decodings counted so far
pub mod number; // the number of a cell
pub mod packed; // a line packed in two words
pub mod row; // a lent row beside its packed line
pub mod tables; // the tables that decoding reads, made once and lent
pub mod codeword; // the test of a word
pub mod encoding; // a message encoded to a line, by a table that is made once and lent
mod bounded; // bounded-distance decoding, and the one function that counts it
pub mod decoding; // line decoding: fill, decode both words, choose
pub mod refusals; // when a call is turned down
mod clause; // what is known of a line, and the clause that settles a cell
pub mod messages; // the messages of a line
pub mod sending; // a lent row of an array: packed, sent, written back
pub mod entry; // what a caller outside may use
