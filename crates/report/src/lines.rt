// The tickets of a chunk of bytes, and their lines; the line of the count.
ghost use Rattle.std.specs.Prelude.{◌≡◌, ◌+◌, ◌*◌, ◌≤◌, length, take};
ghost use Rattle.rdfs.specs.Numbers.{product, record_length};
ghost use Rattle.rdfs.specs.Words.{filled};
ghost use Rattle.rdfs.specs.Register.{cut, Table};
ghost use Rattle.table.specs.Refused.{answer_of};
ghost use Rattle.ticket.specs.Answered.{added_by, removed_by};
ghost use Rattle.text.specs.Text.{Number, Puts};
ghost use Rattle.report.specs.Lines.{Line, Printed};

use list_form::tickets_of;
use table::{Refusal, Word, answer_of, count_facts};
use text::put_number;
use ticket::{Applied, apply_checked};

// A number of 16 bits and the byte after it: at most five digits.
fn put_short(out: &mut [u8], at: usize, number: u16, after: u8) -> usize
    requires room { at + 6 ≤ length out.old }
    ensures bound { result ≤ at + 6 }
    ensures text { Puts (Number number after) at result out.old out.new }
{
    put_number(out, at, number as u64, after)
}

// How many facts a ticket added, and how many it removed: none if it is refused.
fn counts_of(outcome: Result<Applied, Refusal>) -> (u16, u16)
    ensures added { result.0 ≡ added_by outcome }
    ensures removed { result.1 ≡ removed_by outcome }
{
    match outcome {
        Ok(applied) => (applied.added, applied.removed),
        Err(_) => (0, 0),
    }
}

// The line of a ticket's answer, from place `at` on. The answer is the place after it.
fn put_line(out: &mut [u8], at: usize, outcome: Result<Applied, Refusal>) -> usize
    requires room { at + 18 ≤ length out.old }
    ensures bound { result ≤ at + 18 }
    ensures text { Puts (Line (answer_of outcome) (added_by outcome) (removed_by outcome)) at
        result out.old out.new }
{
    let (added, removed) = counts_of(outcome);
    let second = put_short(out, at, answer_of(outcome) as u16, b' ');
    let third = put_short(out, second, added, b' ');
    put_short(out, third, removed, b'\n')
}

// Runs the tickets in turn on a table known to be consistent, and puts their lines at the start of out. The
// answer is their length.
pub fn put_lines(table: &mut [Word], bytes: &[u8], out: &mut [u8]) -> usize
    requires table { Table product table.old }
    requires room { 18 * length (cut record_length bytes.now) ≤ length out.old }
    ensures printed { Printed table.old (cut record_length bytes.now) result
        table.new out.new }
{
    let mut at = 0;
    for ticket in tickets_of(bytes) {
        let outcome = apply_checked(table, ticket);
        at = put_line(out, at, outcome);
    }
    at
}

// The line of a table's count of facts, at the start of out. The answer is its length.
pub fn put_count(table: &[Word], out: &mut [u8]) -> usize
    requires table { Table product table.now }
    requires room { 6 ≤ length out.old }
    ensures bound { result ≤ length out.new }
    ensures text { Number (length (filled table.now)) 10 (take result out.new) }
{
    let count = count_facts(table);
    put_short(out, 0, count as u16, b'\n')
}
