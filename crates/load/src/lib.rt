// A repeatable load: a sheet encoded from a message, with so many of its cells wrong and so many unsure, at places that a seed decides.
#![tactic(auto)]

pub mod draws; // numbers from a seed
mod shuffling; // the places of a sheet in shuffled order
mod hitting; // cells inverted and made unsure
mod refusals; // the tests of the call
pub mod entry; // the load, for a caller outside
