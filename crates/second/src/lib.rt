// A second implementation of documents 01 and 02, written from their definitions: a word is tried with no cell flipped, with one and with
// two, a message is one decoding per cell, a line is encoded by division by the generator polynomial, a file is read and written byte
// by byte, and a load's shuffle is undone. It shares nothing with the decoder but the cells. `agreement` compares the decoder with it.
// Beside it: what a comparison notes.
//
// A code is given by n, and decodes by the weights of its cells. A line is an array of 128 cells, of which the first n count, and the others are 0; an
// array of n by n cells is one of 16384, row after row.
#![tactic(auto)]

pub mod codes; // what is fixed for each degree
pub mod codewords; // weights, check sums, bounded distance by trying flips
pub mod lines; // line decoding, messages, clauses and their count
pub mod arrays; // the decoding of an array
pub mod encoding; // encoding, putting a message in, and taking it out
pub mod refusals; // why a call is turned down
pub mod sheets; // what `sheet` prints
pub mod blocks; // sheets in blocks of 512 bytes
pub mod loads; // repeatable loads
pub mod tallies; // comparing, counting, sums of results, and how they are printed
