// What program one does with its input: turns that each read a chunk, run its tickets and write their lines;
// the line of the count of facts.
//
// The functions serve the program. `run_input` requires a consistent table, a chunk of whole tickets and room
// for their lines, `put_count` a consistent table and room for a line. Of reading and writing the crate
// assumes std's contracts, which say how many bytes a call moves.
#![tactic(auto)]

mod lines;
mod turns;

pub use lines::put_count;
pub use turns::run_input;
