// Program one: runs tickets, raw bytes from standard input, on a fresh table of 2,048 words. For each it
// prints answer, added and removed on a line; 1 to 4 bytes left over are a ticket of that length. Last it
// prints the count of facts. Input may be of any length. If a read or a write fails, a line on standard error
// says so and nothing more is printed, so that the count is missing.
#![tactic(auto)]

ghost use Rattle.std.specs.Prelude.{◌≡◌, length};
ghost use Rattle.rdfs.specs.Numbers.{product};
ghost use Rattle.report.specs.Turns.{Sized, Finishes};

use report::{put_count, run_input};
use std::io::Input;
use streams::write_output;
use table::{MOST, Word};
use table_calls::fresh;

// How many bytes are read at once: whole tickets, whose lines fit a large buffer.
const CHUNK: usize = 16000;

// Runs the whole input on a fresh table and prints the count. The answer is the length of the count's line,
// which stands at the start of out; None if a read or a write failed.
fn run_program(
    rt: &(impl Input + Print),
    table: &mut [Word],
    bytes: &mut [u8],
    out: &mut [u8],
) -> Option<usize>
    requires most { length table.old ≡ product.most }
    requires sized { Sized (length bytes.old) (length out.old) }
    ensures printed { Finishes result (length bytes.old) table.new
        out.new }
{
    let _outcome = fresh(table);
    let all = run_input(rt, table, bytes, out);
    if !all {
        return None;
    }
    let length = put_count(table, out);
    let written = write_output(rt, b"apply_tickets", &out[..length]);
    if !written {
        return None;
    }
    Some(length)
}

fn main(rt: HostRuntime) {
    let mut table: [Word; MOST] = [0; MOST];
    let mut bytes = [0u8; CHUNK];
    let mut out = io::large_buffer();
    run_program(&rt, &mut table, &mut bytes, &mut out);
}
