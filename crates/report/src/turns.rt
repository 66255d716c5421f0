// The turns of program one: each reads a chunk of the input, runs its tickets and writes their lines.
ghost use Rattle.std.specs.Prelude.{◌≤◌, length};
ghost use Rattle.report.specs.Turns.{Lent, Shows, Ran};

use crate::lines::put_lines;
use std::io::Input;
use streams::{read_input, write_output};
use table::Word;

// What a turn came to.
#[derive(Clone, Copy)]
pub enum Turned {
    // The chunk was full, and its lines are written: more input may follow.
    More,
    // The input ended after this many bytes of the chunk, and their lines are written.
    Last(usize),
}

// Runs the tickets of the first n bytes of a chunk and writes their lines. None if the write fails.
fn run_tickets(
    rt: &impl Print,
    table: &mut [Word],
    bytes: &[u8],
    count: usize,
    out: &mut [u8],
) -> Option<Turned>
    requires lent { Lent table.old bytes.now out.old }
    requires bytes { count ≤ length bytes.now }
    ensures turn { Shows result table.old bytes.now table.new
        out.new }
{
    let length = put_lines(table, &bytes[..count], out);
    let written = write_output(rt, b"apply_tickets", &out[..length]);
    if !written {
        return None;
    }
    if count == bytes.len() {
        return Some(Turned::More);
    }
    Some(Turned::Last(count))
}

// Reads a chunk, runs its tickets and writes their lines. If the read fails, none of its tickets is run.
fn run_chunk(
    rt: &(impl Input + Print),
    table: &mut [Word],
    bytes: &mut [u8],
    out: &mut [u8],
) -> Option<Turned>
    requires lent { Lent table.old bytes.old out.old }
    ensures turn { Shows result table.old bytes.new table.new
        out.new }
{
    let count = read_input(rt, b"apply_tickets", bytes)?;
    run_tickets(rt, table, bytes, count, out)
}

// Runs the whole input, turn by turn. Whether it came to the end of the input. A loop has to end, and nothing
// says that the input does: it counts to a number that no run comes to.
pub fn run_input(
    rt: &(impl Input + Print),
    table: &mut [Word],
    bytes: &mut [u8],
    out: &mut [u8],
) -> bool
    requires lent { Lent table.old bytes.old out.old }
    ensures turns { Ran result (length bytes.old) table.old table.new }
{
    for _ in 0..u64::MAX {
        match run_chunk(rt, table, bytes, out) {
            Some(Turned::More) => {}
            Some(Turned::Last(_)) => return true,
            None => return false,
        }
    }
    false
}
