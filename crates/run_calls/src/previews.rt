// A ticket in two steps: what is printed of asking and of committing.
ghost use Rattle.std.specs.Prelude.{◌≤◌, length};

use crate::calls::print_applied;
use preview::{ask, commit};
use script::{print_text, print_words, put_words, split_number};
use table::Word;

// The words that a run can have.
const RUN: usize = 2048;

// What stands in a run before the call that writes to it.
const UNWRITTEN: Word = 4294967295;

// Asks with these runs, and prints them whole: no word of theirs is 0.
fn print_asked(table: &[Word], ticket: &[u8], added: &mut [Word], removed: &mut [Word]) {
    let applied = ask(table, ticket, added, removed);
    print_applied(applied);
    print_words(added);
    print_text(b" /");
    print_words(removed);
}

// Asks with an added run of so many words; how many the removed run has comes before the ticket.
pub fn print_ask(table: &[Word], coming: usize, given: &[u8]) {
    let (going, ticket) = split_number(given);
    let mut added = [UNWRITTEN; RUN];
    let mut removed = [UNWRITTEN; RUN];
    print_asked(
        table,
        ticket,
        &mut added[..coming.min(RUN)],
        &mut removed[..going.min(RUN)],
    );
}

// Puts the words of bytes into both runs, and commits with these and with the ticket behind the words. Where
// bytes of words are missing there is no ticket, which is refused whatever the runs have.
fn print_committed(table: &mut [Word], given: &[u8], added: &mut [Word], removed: &mut [Word])
    requires added { length added.old ≤ 2048 }
    requires removed { length removed.old ≤ 2048 }
{
    let second = given.get(4 * added.len()..).unwrap_or(&[]);
    let ticket = second.get(4 * removed.len()..).unwrap_or(&[]);
    put_words(added, given);
    put_words(removed, second);
    let applied = commit(table, ticket, added, removed);
    print_applied(applied);
}

// Commits with an added run of so many words; how many the removed run has comes before the words.
pub fn print_commit(table: &mut [Word], coming: usize, given: &[u8]) {
    let (going, behind) = split_number(given);
    let mut added = [0; RUN];
    let mut removed = [0; RUN];
    print_committed(
        table,
        behind,
        &mut added[..coming.min(RUN)],
        &mut removed[..going.min(RUN)],
    );
}
