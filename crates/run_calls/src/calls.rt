// The calls, and what is printed of each.
use crate::rule::print_rule;
use consistency::{check, first_broken};
use image::{body, write};
use list::{apply_list, apply_operator_list};
use list_form::Listed;
use operators::apply_operator;
use script::{print_answer, print_bytes, print_number, print_test, word_in};
use singles::apply_each;
use table::{Refusal, Word, answer_of};
use table_calls::lookup;
use ticket::{Applied, apply};

// What stands in lent bytes before a call.
pub const UNTOUCHED: u8 = 255;

// The bytes that can be lent for an image.
const OUTPUT: usize = 8200;

// After a 3 comes the first rule that is broken.
pub fn print_check(table: &[Word]) {
    let outcome = check(table);
    print_answer(answer_of(outcome));
    if let Err(Refusal::Inconsistent) = outcome {
        if let Some(rule) = first_broken(table) {
            print_rule(rule);
        }
    }
}

pub fn print_lookup(table: &[Word], given: &[u8]) {
    let looked = lookup(table, word_in(given, 0));
    print_answer(answer_of(looked));
    print_test(looked.unwrap_or(false));
}

// What a ticket answered: no facts if it is refused.
pub fn print_applied(outcome: Result<Applied, Refusal>) {
    let none = Applied {
        added: 0,
        removed: 0,
    };
    let applied = outcome.unwrap_or(none);
    print_answer(answer_of(outcome));
    print_number(applied.added as usize);
    print_number(applied.removed as usize);
}

pub fn print_apply(table: &mut [Word], given: &[u8]) {
    let applied = apply(table, given);
    print_applied(applied);
}

pub fn print_operator(table: &mut [Word], given: &[u8]) {
    let applied = apply_operator(table, given);
    print_applied(applied);
}

// What a list answered, no tickets if it is refused, and the answer bytes.
pub fn print_listed(outcome: Result<Listed, Refusal>, answers: &[u8]) {
    let none = Listed {
        accepted: 0,
        refused: 0,
    };
    let listed = outcome.unwrap_or(none);
    print_answer(answer_of(outcome));
    print_number(listed.accepted);
    print_number(listed.refused);
    print_bytes(answers);
}

pub fn print_list(table: &mut [Word], given: &[u8], answers: &mut [u8]) {
    let listed = apply_list(table, given, answers);
    print_listed(listed, answers);
}

pub fn print_operators(table: &mut [Word], given: &[u8], answers: &mut [u8]) {
    let listed = apply_operator_list(table, given, answers);
    print_listed(listed, answers);
}

pub fn print_each(table: &mut [Word], given: &[u8], answers: &mut [u8]) {
    let listed = apply_each(table, given, answers);
    print_listed(listed, answers);
}

fn print_written(table: &[Word], output: &mut [u8]) {
    let written = write(table, output);
    print_answer(answer_of(written));
    print_number(written.unwrap_or(0) as usize);
    print_bytes(output);
}

// Writes into so many bytes.
pub fn print_write(table: &[Word], room: usize) {
    let mut output = [UNTOUCHED; OUTPUT];
    print_written(table, &mut output[..room.min(OUTPUT)]);
}

// The body of a kind; a number above 255 is none.
pub fn print_body(number: usize, image: &[u8]) {
    let part = body(image, u8::try_from(number).unwrap_or(0));
    print_number(part.len());
    print_bytes(part);
}
