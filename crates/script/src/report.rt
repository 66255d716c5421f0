// Parts of lines printed: numbers, bytes, words.
ghost use Rattle.std.specs.Prelude.{◌≤◌, length};

use streams::STDOUT;
use table::Word;

pub fn print_text(text: &[u8]) {
    io::write_all(STDOUT, text);
}

// A number, after a blank.
pub fn print_number(number: usize) {
    print_text(b" ");
    io::print_decimal(STDOUT, number as u64);
}

pub fn print_answer(answer: u8) {
    print_number(answer as usize);
}

// 1 where the test holds, else 0.
pub fn print_test(test: bool) {
    print_number(test as usize);
}

// Numbers in hexadecimal, each of at least so many digits, after a blank.
fn print_each<T: Copy + Into<u64>>(numbers: &[T], digits: usize) {
    for &number in numbers {
        print_text(b" ");
        io::print_hex(STDOUT, number.into(), digits);
    }
}

pub fn print_bytes(bytes: &[u8]) {
    print_each(bytes, 2);
}

// How many words there are up to the last that is not 0.
fn count_used(table: &[Word]) -> usize
    ensures bound { result ≤ length table.now }
{
    match table.iter().rposition(|&word| word != 0) {
        Some(last) => last + 1,
        None => 0,
    }
}

pub fn print_count(table: &[Word]) {
    print_number(count_used(table));
}

// The words up to the last that is not 0.
pub fn print_words(table: &[Word]) {
    print_each(&table[..count_used(table)], 8);
}
