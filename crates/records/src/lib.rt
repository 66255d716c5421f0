// A list of tickets as structs, borrowed, run in turn on one table.
//
// The public call is `apply_records`. It has no `requires`: it says, for all inputs, its answer, both counts,
// and every word and byte afterwards; they are those of `list::apply_list` with the tickets' bytes. The walk
// decides nothing: it hands each ticket to a covered function. The crate assumes nothing.
#![tactic(auto)]

ghost use Rattle.std.specs.Prelude.{◌≤◌, ◌<◌, map, length};
ghost use Rattle.rdfs.specs.Numbers.{product};
ghost use Rattle.rdfs.specs.Register.{step, run, Table};
ghost use Rattle.ticket_form.specs.TicketForm.{bytes_of};
ghost use Rattle.list_form.specs.Listing.{listing, ListAnswered, record_bytes};
ghost use Rattle.list_form.specs.Loops.{OneRun, AllRun};

use list_form::{Listed, check_list, put_answer, sum_up};
use table::{Refusal, Word, answer_of};
use ticket::apply_ticket;
use ticket_form::Ticket;

// Runs one ticket of a list, by its place in it, on a table known to be consistent. The answer is how many
// are accepted with it, `accepted` of those before it.
fn run_ticket(
    table: &mut [Word],
    answers: &mut [u8],
    place: usize,
    accepted: usize,
    ticket: Ticket,
) -> usize
    requires table { Table product table.old }
    requires place { (place < length answers.old) × (accepted ≤ place) }
    ensures answer { OneRun place accepted result table.new answers.old
        answers.new (step product table.old (bytes_of ticket)) }
{
    let outcome = apply_ticket(table, ticket);
    put_answer(answers, place, accepted, answer_of(outcome))
}

// Runs the tickets in turn. The answer is how many are accepted.
// The loop differs from those of `list` in the call: the contract of a closure would say it all again.
fn run_records(table: &mut [Word], tickets: &[Ticket], answers: &mut [u8]) -> usize
    requires table { Table product table.old }
    requires room { length tickets.now ≤ length answers.old }
    ensures answer { AllRun result table.new answers.old answers.new
        (run product table.old (map bytes_of tickets.now)) }
{
    let mut accepted = 0;
    for (place, &ticket) in tickets.iter().enumerate() {
        accepted = run_ticket(table, answers, place, accepted, ticket);
    }
    accepted
}

// Runs a list of tickets in turn on one table, as `apply_list` does with their bytes.
pub fn apply_records(
    table: &mut [Word],
    tickets: &[Ticket],
    answers: &mut [u8],
) -> Result<Listed, Refusal>
    ensures answer { ListAnswered result table.new answers.new
        (listing table.old (record_bytes tickets.now) answers.old) }
{
    check_list(table, tickets.len(), answers.len())?;
    let accepted = run_records(table, tickets, answers);
    Ok(sum_up(tickets.len(), accepted))
}
