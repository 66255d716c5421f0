// For the benchmark: reads an image from standard input, checks its table again and again, and prints how
// many of the checks accepted it. For a refused image it prints nothing.
#![tactic(auto)]

use consistency::check;
use image::{LONGEST, read};
use streams::{STDIN, STDOUT};
use table::{CLASS, MOST, RESOURCE, Word, word_of};

// How often the table is checked.
const ROUNDS: u64 = 5000;

// Whether a check accepts the table. The first word of a consistent table is stored each time, so that no check
// can stand for the next.
fn check_again(table: &mut [Word; MOST]) -> bool {
    table[0] = word_of(CLASS, RESOURCE, 0, 0);
    check(table).is_ok()
}

// How many of the checks accept the table.
fn count_accepted(table: &mut [Word; MOST]) -> u64 {
    let mut accepted = 0;
    for _ in 0..ROUNDS {
        accepted += check_again(table) as u64;
    }
    accepted
}

fn main() {
    let mut input = [0u8; LONGEST + 1];
    let length = io::read_full(STDIN, &mut input);
    if LONGEST < length {
        return;
    }
    let mut table: [Word; MOST] = [0; MOST];
    if read(&mut table, &input[..length]).is_err() {
        return;
    }
    let accepted = count_accepted(&mut table);
    io::print_decimal(STDOUT, accepted);
    io::write_all(STDOUT, b"\n");
}
