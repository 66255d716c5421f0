// Lookups among the facts of a table, and whether an insertion clashes, decided by them before anything is
// put in: refusal 10.
//
// The functions serve the crates above. Each requires the facts of a table without its zeros, and ids up to
// the highest; of a kind `clashes` asks nothing. Nothing is written. The crate assumes nothing.
#![tactic(auto)]

mod lookups;
mod parts;

pub use lookups::{first_with, has_property};
pub use parts::clashes;
