// Reads a text from standard input into 2,048 words and prints the image of its graph. For a refused text it
// prints nothing. Of a text of more than 1,048,576 bytes it prints nothing, and a line on standard error says
// so. If a read or a write fails, a line on standard error says so; after a failed read nothing is printed.
#![tactic(auto)]

use exchange::put_image;
use image::LONGEST;
use streams::{read_whole, text_buffer, write_output};

fn main(rt: HostRuntime) {
    let mut input = text_buffer();
    let Some(count) = read_whole(&rt, b"read_triples", &mut input) else {
        return;
    };
    let mut out = [0u8; LONGEST];
    let length = put_image(&input[..count], &mut out);
    write_output(&rt, b"read_triples", &out[..length]);
}
