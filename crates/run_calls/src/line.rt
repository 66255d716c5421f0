// A line of the script: its name and its bytes.
use crate::command::{Command, run};
use script::{print_text, put_data};
use table::Word;

// The bytes that a line can have.
const BYTES: usize = 8200;

// Runs a command with the bytes of a text. The answer is how many words the table has then.
fn run_on(
    command: Command,
    text: &[u8],
    words: &mut [Word],
    count: usize,
    kept: &mut [Word],
) -> usize {
    let mut given = [0u8; BYTES];
    let length = put_data(text, &mut given);
    run(command, &mut given[..length], words, count, kept)
}

// Runs a line, whose name ends with it or at a blank, and prints its line.
fn run_named(line: &[u8], words: &mut [Word], count: usize, kept: &mut [Word]) -> usize {
    let end = line
        .iter()
        .position(|&byte| byte == b' ')
        .unwrap_or(line.len());
    let name = &line[..end];
    let Some(command) = Command::named(name) else {
        print_text(b"?\n");
        return count;
    };
    print_text(name);
    let length = run_on(command, &line[end..], words, count, kept);
    print_text(b"\n");
    length
}

// Runs a line, unless it is empty or a comment.
fn run_line(line: &[u8], words: &mut [Word], count: usize, kept: &mut [Word]) -> usize {
    match line {
        [] | [b'#', ..] => count,
        _ => run_named(line, words, count, kept),
    }
}

// The lines of a text in turn.
pub fn run_lines(text: &[u8], words: &mut [Word], kept: &mut [Word]) {
    let mut count = 0;
    for line in text.split(|&byte| byte == b'\n') {
        count = run_line(line, words, count, kept);
    }
}
