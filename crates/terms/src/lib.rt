// The terms of a profile of N-Triples: put into lent bytes, measured, and read from a text.
//
// The functions serve the crate above; what they require stands in their contracts. The crate assumes
// nothing.
#![tactic(auto)]

mod measure;
mod put;
mod read;
mod term;

pub use measure::term_length;
pub use put::{put_ended, put_piece};
pub use read::read_ended;
pub use term::Term;
