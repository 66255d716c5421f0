// A lent table of words: the word of a fact, the layout of a table, the search in it, room made and filled.
//
// The functions serve the crates above; what they require stands in their contracts. The public calls `fresh`
// and `lookup` stand in `table_calls`. The crate assumes nothing.
#![tactic(auto)]

mod layout;
mod refusals;
mod room;
mod search;
mod words;

pub use layout::{check_layout, count_facts, is_bad_size};
pub use refusals::{Refusal, answer_of};
pub use room::{Stored, put_at, store};
pub use search::{count_below, count_up_to, find, has_fact, has_word};
pub use words::{
    BASE, CLASS, DOMAIN, EXCLUSIVE, INDIVIDUAL, KINDS, LITERAL, Limits, MARK, MEMBER, MOST,
    PROPERTY, RANGE, RESOURCE, SUBCLASS, SUBPROPERTY, TOP, VALUE, Word, arity_of, first_of,
    is_fact, kind_numbers, kind_of, numbers, place, second_of, third_of, word_of,
};
