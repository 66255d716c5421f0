// Program two: reads an image from standard input into 2,048 words and prints its facts, one decimal word a
// line. For a refused image it prints nothing. Input longer than the longest image is refused, not cut. If a
// read or a write fails, a line on standard error says so; after a failed read nothing is printed.
#![tactic(auto)]

mod lines;

use image::LONGEST;
use lines::put_read;
use streams::{read_input, write_output};

fn main(rt: HostRuntime) {
    let mut input = [0u8; LONGEST + 1];
    let Some(count) = read_input(&rt, b"print_facts", &mut input) else {
        return;
    };
    let mut out = io::large_buffer();
    let length = put_read(&input, count, &mut out);
    write_output(&rt, b"print_facts", &out[..length]);
}
