// The standard streams of the programs: input read into a lent buffer, text written, and what is said
// on standard error where one of them fails.
//
// No function has a `requires`. The crate assumes std's contracts of `Read` and `Print`, which say how many
// bytes a call moves; which bytes they are, and from or to which stream, no contract can say.
#![tactic(auto)]

ghost use Rattle.streams.specs.Input.{Within, Ends};
ghost use Rattle.std.specs.Prelude.{◌≡◌, ◌≤◌, IfOk, length};

use std::io::{Input, Read, Result};

// The descriptors of standard input, standard output and standard error, for what is read and printed by the
// kit's `io`.
pub const STDIN: i32 = 0;

pub const STDOUT: i32 = 1;

const STDERR: i32 = 2;

// The most bytes of a text that a program reads.
pub const TEXT: usize = 1048576;

// Zeros for a text, and one more: a text that fills them is too long. The `ensures` gives only the length,
// which lending the array as a slice needs.
pub fn text_buffer() -> [u8; TEXT + 1]
    ensures length { 1048577 ≡ length result }
{
    [0; TEXT + 1]
}

// Reads until the buffer is full or the input ends, and answers how many bytes stand at its start: all of it,
// or fewer, and then the input ended after them. If a read fails, how far it came is not told. A read that a
// signal interrupts, or that finds nothing yet on a descriptor that does not wait, has failed: it is not the
// end of the input.
// The loop counts the bytes that reads moved, which no iterator gives: a `while`.
fn fill<R: Read>(reader: &mut R, buffer: &mut [u8]) -> Result<usize>
    ensures bound { IfOk result (λ count. count ≤ length buffer.new) }
{
    let mut done = 0;
    while done < buffer.len() {
        let more = reader.read(&mut buffer[done..])?;
        if more == 0 {
            break;
        }
        done += more;
    }
    Ok(done)
}

// A line on standard error: the program's name, and what failed.
fn complain(program: &[u8], what: &[u8]) {
    io::write_all(STDERR, program);
    io::write_all(STDERR, what);
}

// Reads standard input into a buffer, and answers how many bytes it read, as many as there is room for at
// most. If a read fails, a line on standard error says so, after the program's name.
pub fn read_input(rt: &impl Input, program: &[u8], buffer: &mut [u8]) -> Option<usize>
    ensures bound { Within result (length buffer.new) }
{
    let mut reader = rt.reader();
    let Ok(count) = fill(&mut reader, buffer) else {
        complain(program, b": standard input could not be read\n");
        return None;
    };
    Some(count)
}

// Reads all of standard input into a buffer that is longer than it. If it is not, or a read fails, a line on
// standard error says so, after the program's name.
pub fn read_whole(rt: &impl Input, program: &[u8], buffer: &mut [u8]) -> Option<usize>
    ensures whole { Ends result (length buffer.new) }
{
    let count = read_input(rt, program, buffer)?;
    if count == buffer.len() {
        complain(program, b": the input is too long\n");
        return None;
    }
    Some(count)
}

// Writes all of a text to standard output. If a write fails the answer is false, part of the text may have
// been written, and a line on standard error says so, after the program's name.
// Whether it was written, and nothing beside it: a Result would tell no more.
pub fn write_output(rt: &impl Print, program: &[u8], text: &[u8]) -> bool {
    let written = rt.write_all(text).is_ok();
    if !written {
        complain(program, b": standard output could not be written\n");
    }
    written
}
