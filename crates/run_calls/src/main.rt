// The public calls but the host's and those on texts, by a script from standard input, one command a line;
// for each a line is printed.
//
// There are a table of up to 2,049 words, none at first, and a copy of 2,049 words, zeros at first. A line is
// a command's name and what belongs to it in hexadecimal, two small digits a byte, with blanks between at
// will: NUMBER is two bytes, WORD four, a fact's kind, a, b and c. What is not given is 0. What is printed is
// the name, and after it, one blank before each, numbers in decimal, bytes and words in hexadecimal.
//
//     table NUMBER WORDS     the table has NUMBER words: those given, then the last of them to the end
//     keep                   the table's words go to the start of the copy
//     back                   the table has the words with which the copy begins
//     same                   prints 1 if the table has the words with which the copy begins, else 0
//     facts                  how many words the table has up to the last that is not 0
//     words                  these words
//     fresh                  the answer
//     check                  the answer, and for 3 the first rule broken: of Fig. 3, then of H1 to H4, E1, E2
//     lookup WORD            the answer, and 1 if the word is present, else 0
//     apply BYTES            the answer to the ticket, facts added, facts removed
//     operator BYTES         the same by `apply_operator`
//     ask NUMBER NUMBER BYTES
//                            the same by `ask` with so many words in the added and in the removed run, at
//                            most 2,048 each, ffffffff before the call; then the words of the added run, a
//                            stroke, the words of the removed run
//     commit NUMBER NUMBER WORDS BYTES
//                            the same by `commit` with so many words in the added and in the removed run,
//                            at most 2,048 each: the WORDS, those of the added run first
//     list NUMBER BYTES      by `apply_list` with NUMBER answer bytes, at most 2,048, each ff before the
//                            call: the answer, tickets accepted, tickets refused, the answer bytes
//     each NUMBER BYTES      the same by `apply_each`
//     operators NUMBER BYTES the same by `apply_operator_list`
//     records NUMBER BYTES   the same by `apply_records`, for five tickets; a question mark for other bytes
//     write NUMBER           into NUMBER bytes, at most 8,200, each ff before the call: the answer, the
//                            length, all the bytes
//     read BYTES             the answer; the image is read into the table
//     body NUMBER BYTES      the length and the bytes of the part that is handed out for this kind
//     damage BYTES           reads the image with each byte set to each value, and puts the copy's words back
//                            into the table after each. How often each answer from 0 to 12 came: 0 where
//                            writing gives the image for the table read, a refusal where the table has the
//                            copy's words; then how many were read otherwise, and refused otherwise
//
// An empty line and one that begins with # are passed over. Any other line prints a question mark.
#![tactic(auto)]

mod calls;
mod command;
mod damage;
mod line;
mod previews;
mod rule;
mod tickets;

use line::run_lines;
use streams::STDIN;
use table::{MOST, Word};

// The words that can be lent, one more than a table may have.
const WORDS: usize = MOST + 1;

// Of standard input the first 65,536 bytes count.
fn main() {
    let mut text = io::large_buffer();
    let length = io::read_full(STDIN, &mut text);
    let mut words: [Word; WORDS] = [0; WORDS];
    let mut kept: [Word; WORDS] = [0; WORDS];
    run_lines(&text[..length], &mut words, &mut kept);
}
