// The commands, each by its name.
use crate::calls::{
    UNTOUCHED, print_apply, print_body, print_check, print_each, print_list, print_lookup,
    print_operator, print_operators, print_write,
};
use crate::damage::print_damage;
use crate::previews::{print_ask, print_commit};
use crate::tickets::print_records;
use image::read;
use script::{
    copy_common, print_answer, print_count, print_test, print_words, put_words, split_number,
};
use table::{Word, answer_of};
use table_calls::fresh;

// A call with a list of tickets.
#[derive(Clone, Copy)]
pub enum ListCall {
    List,
    Each,
    Records,
    Operators,
}

// What is done with a number and the bytes behind it.
#[derive(Clone, Copy)]
pub enum Numbered {
    Run(ListCall),
    Write,
    Body,
    Ask,
    Commit,
}

#[derive(Clone, Copy)]
pub enum Command {
    Table,
    With(Numbered),
    Fresh,
    Check,
    Lookup,
    Apply,
    Operator,
    Read,
    Facts,
    Words,
    Keep,
    Back,
    Same,
    Damage,
}

impl Command {
    pub fn named(name: &[u8]) -> Option<Command> {
        let command = match name {
            b"table" => Command::Table,
            b"list" => Command::With(Numbered::Run(ListCall::List)),
            b"each" => Command::With(Numbered::Run(ListCall::Each)),
            b"records" => Command::With(Numbered::Run(ListCall::Records)),
            b"operators" => Command::With(Numbered::Run(ListCall::Operators)),
            b"write" => Command::With(Numbered::Write),
            b"body" => Command::With(Numbered::Body),
            b"ask" => Command::With(Numbered::Ask),
            b"commit" => Command::With(Numbered::Commit),
            b"fresh" => Command::Fresh,
            b"check" => Command::Check,
            b"lookup" => Command::Lookup,
            b"apply" => Command::Apply,
            b"operator" => Command::Operator,
            b"read" => Command::Read,
            b"facts" => Command::Facts,
            b"words" => Command::Words,
            b"keep" => Command::Keep,
            b"back" => Command::Back,
            b"same" => Command::Same,
            b"damage" => Command::Damage,
            _ => return None,
        };
        Some(command)
    }
}

// The answer bytes that can be lent.
const ANSWERS: usize = 2048;

// The table has the words that are given behind their number. The answer is how many.
fn lay_table(words: &mut [Word], given: &[u8]) -> usize {
    let (number, behind) = split_number(given);
    let count = number.min(words.len());
    put_words(&mut words[..count], behind);
    count
}

// A call with a list of tickets, and with so many answer bytes.
fn run_list(call: ListCall, number: usize, given: &[u8], table: &mut [Word]) {
    let mut lent = [UNTOUCHED; ANSWERS];
    let answers = &mut lent[..number.min(ANSWERS)];
    match call {
        ListCall::List => print_list(table, given, answers),
        ListCall::Each => print_each(table, given, answers),
        ListCall::Records => print_records(table, given, answers),
        ListCall::Operators => print_operators(table, given, answers),
    }
}

// What is done with a number.
fn run_numbered(numbered: Numbered, given: &[u8], table: &mut [Word]) {
    let (number, behind) = split_number(given);
    match numbered {
        Numbered::Run(call) => run_list(call, number, behind, table),
        Numbered::Write => print_write(table, number),
        Numbered::Body => print_body(number, behind),
        Numbered::Ask => print_ask(table, number, behind),
        Numbered::Commit => print_commit(table, number, behind),
    }
}

// Runs a command with a table of n words. The answer is how many it has then.
pub fn run(
    command: Command,
    given: &mut [u8],
    words: &mut [Word],
    count: usize,
    kept: &mut [Word],
) -> usize {
    let used = count.min(words.len());
    let table = &mut words[..used];
    match command {
        Command::Table => return lay_table(words, given),
        Command::With(numbered) => run_numbered(numbered, given, table),
        Command::Fresh => print_answer(answer_of(fresh(table))),
        Command::Check => print_check(table),
        Command::Lookup => print_lookup(table, given),
        Command::Apply => print_apply(table, given),
        Command::Operator => print_operator(table, given),
        Command::Read => print_answer(answer_of(read(table, given))),
        Command::Facts => print_count(table),
        Command::Words => print_words(table),
        Command::Keep => copy_common(table, kept),
        Command::Back => copy_common(kept, table),
        Command::Same => print_test(kept.starts_with(table)),
        Command::Damage => print_damage(given, table, kept),
    }
    used
}
