// Tickets as structs.
ghost use Rattle.std.specs.Prelude.{◌+◌, ◌≤◌, length};
ghost use Rattle.list_form.specs.Listing.{listing, ListAnswered, record_bytes};

use crate::calls::print_listed;
use list_form::Listed;
use records::apply_records;
use script::print_text;
use table::{Refusal, Word};
use ticket_form::{RECORD, Ticket};

// How many tickets are lent.
const TICKETS: usize = 5;

// The ticket of the five bytes from place i on.
fn ticket_at(bytes: &[u8], place: usize) -> Ticket
    requires room { place + 5 ≤ length bytes.now }
{
    Ticket {
        operation: bytes[place],
        kind: bytes[place + 1],
        a: bytes[place + 2],
        b: bytes[place + 3],
        c: bytes[place + 4],
    }
}

// Runs a list of five tickets by `apply_records`. The array is lent here, so that callers make no reference
// to structs.
fn apply_five(
    table: &mut [Word],
    tickets: [Ticket; TICKETS],
    answers: &mut [u8],
) -> Result<Listed, Refusal>
    ensures answers { ListAnswered result table.new answers.new
        (listing table.old (record_bytes tickets) answers.old) }
{
    apply_records(table, &tickets, answers)
}

// Runs the five tickets of 25 bytes by `apply_records`.
pub fn print_records(table: &mut [Word], bytes: &[u8], answers: &mut [u8]) {
    if bytes.len() != TICKETS * RECORD {
        print_text(b" ?");
        return;
    }
    let tickets = [
        ticket_at(bytes, 0),
        ticket_at(bytes, 5),
        ticket_at(bytes, 10),
        ticket_at(bytes, 15),
        ticket_at(bytes, 20),
    ];
    let listed = apply_five(table, tickets, answers);
    print_listed(listed, answers);
}
