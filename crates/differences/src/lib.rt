// The words of one table that another lacks, ascending, in one pass over the two: written to a run, or
// compared with one.
//
// `put_missing` and `is_missing` serve the crates above; what they require stands in their contracts. The
// crate assumes nothing.
#![tactic(auto)]

mod besides;

pub use besides::{is_missing, put_missing};
