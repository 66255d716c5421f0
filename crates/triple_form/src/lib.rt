// The form of a triple in a profile of N-Triples: the line of a fact put into lent bytes, and a line read
// from a text.
//
// The functions serve the crate above; what they require stands in their contracts. A line that is read is
// inside the profile exactly if it is the line of a fact that a table can have. The crate assumes nothing.
#![tactic(auto)]

mod fact;
mod line;

pub use fact::Told;
pub use line::{LONGEST_LINE, has_line, line_length, put_line, read_line};
