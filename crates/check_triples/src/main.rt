// Reads a text from standard input into 2,048 words and prints the answer, 0, 15, 11 or 3, and a newline. Of
// a text of more than 1,048,576 bytes it prints nothing, and a line on standard error says so. If a read or a
// write fails, a line on standard error says so; after a failed read nothing is printed.
#![tactic(auto)]

ghost use Rattle.std.specs.Prelude.{◌≤◌, length, replicate};
ghost use Rattle.rdfs.specs.Numbers.{product};
ghost use Rattle.text.specs.Text.{Number, Puts};
ghost use Rattle.triples.specs.ReadTriples.{read_triples_answer};

use streams::{read_whole, text_buffer, write_output};
use table::{MOST, Word, answer_of};
use text::put_number;
use triples::read_triples;

// Puts the answer of reading a text into a table of zeros, and a newline, and answers the place after them.
fn put_answer(text: &[u8], out: &mut [u8]) -> usize
    requires room { 4 ≤ length out.old }
    ensures printed { Puts
        (Number (read_triples_answer (replicate product.most 0) text.now) 10) 0 result
        out.old out.new }
    ensures within { result ≤ length out.new }
{
    let mut table: [Word; MOST] = [0; MOST];
    let answer = answer_of(read_triples(&mut table, text));
    put_number(out, 0, answer as u64, b'\n')
}

fn main(rt: HostRuntime) {
    let mut input = text_buffer();
    let Some(count) = read_whole(&rt, b"check_triples", &mut input) else {
        return;
    };
    let mut out = [0u8; 4];
    let length = put_answer(&input[..count], &mut out);
    write_output(&rt, b"check_triples", &out[..length]);
}
