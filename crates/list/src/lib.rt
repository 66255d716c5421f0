// A list of tickets as bytes, run in turn on one table: anyone's tickets, or a shift operator's.
//
// The public calls are `apply_list` and `apply_operator_list`. They have no `requires`: each says, for all
// inputs, its answer, both counts, and every word and byte afterwards. Demand 3, about a whole list by every
// call, is proved here (proofs/ListTheorem), and what a list of operators' tickets keeps
// (proofs/OperatorListTheorems). `run_checked` and `run_unanswered` serve the crates above: the list on a
// table known to be consistent, with answers and without. The crate assumes nothing.
#![tactic(auto)]

ghost use Rattle.std.specs.Prelude.{◌≡◌, ◌≤◌, length};
ghost use Rattle.rdfs.specs.Numbers.{product, record_length};
ghost use Rattle.rdfs.specs.Register.{cut, Table};
ghost use Rattle.rdfs.specs.Operators.{register_as};
ghost use Rattle.list_form.specs.Listing.{listing_as, listing, operator_listing, ListAnswered};
ghost use Rattle.list_form.specs.Loops.{AllRun};

use list_form::{Listed, check_list, count_tickets, put_answer, sum_up, tickets_of};
use operators::{ANYONE, OPERATOR, apply_as};
use table::{Refusal, Word, answer_of};

// Runs the tickets, an operator's or anyone's, in turn on a table known to be consistent. The answer is how
// many are accepted.
pub fn run_checked(operator: bool, table: &mut [Word], bytes: &[u8], answers: &mut [u8]) -> usize
    requires table { Table product table.old }
    requires room { length (cut record_length bytes.now) ≤ length answers.old }
    ensures answer { AllRun result table.new answers.old answers.new
        (register_as operator product table.old bytes.now) }
{
    let mut accepted = 0;
    for (place, ticket) in tickets_of(bytes).enumerate() {
        let outcome = apply_as(operator, table, ticket);
        accepted = put_answer(answers, place, accepted, answer_of(outcome));
    }
    accepted
}

// The same without answers: what the tickets leave, and nothing else.
// With `run_checked` in two: a closure would have to say of the lent table again what each body says.
pub fn run_unanswered(operator: bool, table: &mut [Word], bytes: &[u8])
    requires table { Table product table.old }
    ensures words { table.new ≡ (register_as operator product table.old
        bytes.now).table }
{
    for ticket in tickets_of(bytes) {
        let _outcome = apply_as(operator, table, ticket);
    }
}

// The list call, with an operator's tickets or with anyone's.
fn list_as(
    operator: bool,
    table: &mut [Word],
    bytes: &[u8],
    answers: &mut [u8],
) -> Result<Listed, Refusal>
    ensures answer { ListAnswered result table.new answers.new
        (listing_as operator table.old bytes.now answers.old) }
{
    let tickets = count_tickets(bytes.len());
    check_list(table, tickets, answers.len())?;
    let accepted = run_checked(operator, table, bytes, answers);
    Ok(sum_up(tickets, accepted))
}

// Runs a list of tickets in turn on one table, which is checked once. Each ticket's number goes to its answer
// byte; bytes beyond the list are as they were. Refused with 1, 2, 3 or 14, the table and the answer bytes
// are as found.
pub fn apply_list(table: &mut [Word], bytes: &[u8], answers: &mut [u8]) -> Result<Listed, Refusal>
    ensures answer { ListAnswered result table.new answers.new
        (listing table.old bytes.now answers.old) }
{
    list_as(ANYONE, table, bytes, answers)
}

// The same with tickets of operators, each run as `operators::apply_operator` runs it.
pub fn apply_operator_list(
    table: &mut [Word],
    bytes: &[u8],
    answers: &mut [u8],
) -> Result<Listed, Refusal>
    ensures answer { ListAnswered result table.new answers.new
        (operator_listing table.old bytes.now answers.old) }
{
    list_as(OPERATOR, table, bytes, answers)
}
