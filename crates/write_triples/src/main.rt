// Reads an image from standard input into 2,048 words and prints the text of its graph. For a refused image
// it prints nothing. Input longer than the longest image is refused, not cut. If a read or a write fails, a
// line on standard error says so; after a failed read nothing is printed.
#![tactic(auto)]

use exchange::{LONGEST_TEXT, put_text};
use image::LONGEST;
use streams::{read_input, write_output};

fn main(rt: HostRuntime) {
    let mut input = [0u8; LONGEST + 1];
    let Some(count) = read_input(&rt, b"write_triples", &mut input) else {
        return;
    };
    let mut out = [0u8; LONGEST_TEXT];
    let length = put_text(&input[..count], &mut out);
    write_output(&rt, b"write_triples", &out[..length]);
}
