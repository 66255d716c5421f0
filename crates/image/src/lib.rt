// The image of a table: contents, then one body for each kind. It is written into lent bytes, read into a
// lent table, and a kind's body is handed out as a part of it.
//
// The public calls are `write`, `read` and `body`, passed on from crates `writing`, `reading` and `contents`.
// They have no `requires`: each says, for all inputs, what it answers and every word and byte afterwards;
// `body` also says where its part lies. An image that was written, with eleven entries, is read back as its
// table, and no other image with eleven is read; one with ten is read as a table without facts of kind 11
// (proofs/ImageTheorems.antt, proofs/ImageCallTheorems.antt). `write_checked` serves the crates above:
// writing without the check. The crate assumes nothing.
#![tactic(auto)]

pub use contents::{FIRST_BODY, LONGEST, body};
pub use reading::read;
pub use writing::{write, write_checked};
