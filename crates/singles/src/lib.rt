// A list of tickets as bytes, run in turn by single calls.
//
// The public call is `apply_each`. It has no `requires`: it says, for all inputs, its answer, both counts,
// and every word and byte afterwards; they are those of `list::apply_list`. The crate assumes nothing.
#![tactic(auto)]

ghost use Rattle.std.specs.Prelude.{false, ◌≤◌, length};
ghost use Rattle.rdfs.specs.Numbers.{product, record_length};
ghost use Rattle.rdfs.specs.Register.{cut};
ghost use Rattle.rdfs.specs.Operators.{register_as};
ghost use Rattle.list_form.specs.Listing.{listing, ListAnswered};
ghost use Rattle.list_form.specs.Loops.{AllRun};

use list_form::{Listed, check_list, count_tickets, put_answer, sum_up, tickets_of};
use table::{Refusal, Word, answer_of};
use ticket::apply;

// Runs the tickets in turn, each by a single call on the table that the one before left. The answer is how
// many are accepted.
// The loop differs from those of `list` in the call: the contract of a closure would say it all again.
fn run_each(table: &mut [Word], bytes: &[u8], answers: &mut [u8]) -> usize
    requires room { length (cut record_length bytes.now) ≤ length answers.old }
    ensures answer { AllRun result table.new answers.old answers.new
        (register_as false product table.old bytes.now) }
{
    let mut accepted = 0;
    for (place, ticket) in tickets_of(bytes).enumerate() {
        let outcome = apply(table, ticket);
        accepted = put_answer(answers, place, accepted, answer_of(outcome));
    }
    accepted
}

// Runs a list of tickets in turn: each is run by `ticket::apply`, which checks the table again. Each ticket's
// number goes to its answer byte; bytes beyond the list are as they were. Refused with 1, 2, 3 or 14, the
// table and the answer bytes are as found.
pub fn apply_each(table: &mut [Word], bytes: &[u8], answers: &mut [u8]) -> Result<Listed, Refusal>
    ensures answer { ListAnswered result table.new answers.new
        (listing table.old bytes.now answers.old) }
{
    let tickets = count_tickets(bytes.len());
    check_list(table, tickets, answers.len())?;
    let accepted = run_each(table, bytes, answers);
    Ok(sum_up(tickets, accepted))
}
