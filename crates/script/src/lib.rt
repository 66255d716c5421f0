// For a program that runs a script: bytes read in hexadecimal, a line printed; numbers and words of bytes, words
// copied.
//
// The functions serve the program. `put_data` promises that its answer is within what is lent, `split_number`
// which number it answers and what is left; the others promise nothing. For writing the crate assumes the
// contracts of the kit's `io`.
#![tactic(auto)]

mod line;
mod put;
mod report;

pub use line::put_data;
pub use put::{copy_common, put_words, split_number, word_in};
pub use report::{
    print_answer, print_bytes, print_count, print_number, print_test, print_text, print_words,
};
