// One ticket on a lent table: its refusals in order, the insertion or the deletion.
//
// The public call is `apply`. It has no `requires`: it says, for all words of a table and all bytes of a
// ticket, the answer, both counts and every word afterwards; they are those of the plain register. The other
// functions serve the crates above: `apply_checked` is the same on a table known to be consistent,
// `apply_ticket` on a ticket by its fields, `try_ticket` on a work table. The crate assumes nothing.
//
// A ticket that is refused before 11, or that changes nothing, costs a few lookups: no copy and no pass over
// the table, but for the check in `apply`. An insertion that puts something in first saves the words of the
// table's facts, 8 KB of stack, and puts them back if the new graph does not fit, 11; on a work table it
// saves nothing.
#![tactic(auto)]

ghost use Rattle.std.specs.Prelude.{false};
ghost use Rattle.rdfs.specs.Numbers.{product};
ghost use Rattle.rdfs.specs.Register.{step, Table};
ghost use Rattle.ticket_form.specs.TicketForm.{bytes_of};
ghost use Rattle.ticket.specs.Answered.{Answered, AnsweredAs};

use crate::answer::counts_of;
use crate::step::{run_deletion, run_insertion};
use consistency::check;
use table::{Refusal, Word, count_facts};
use ticket_form::{INSERT, RECORD, Ticket, check_form, decode, wide};

mod answer;
mod step;

pub use answer::Applied;

// Whether a refused ticket has to leave the words as they were: on a caller's table; on a work table, which
// is given up then, it has not. A closure that inserts, in place of the flag, is no plainer: three functions
// would each have a clause on when it may be called and one on what it leaves of a table.
const KEEP: bool = true;

const WORK: bool = false;

// One ticket on a table known to be consistent, or on a work table with such words.
fn run_ticket(keep: bool, table: &mut [Word], ticket: Ticket) -> Result<Applied, Refusal>
    requires table { Table product table.old }
    ensures answer { AnsweredAs keep result table.new (step product table.old
        (bytes_of ticket)) }
{
    check_form(ticket)?;
    let count = count_facts(table);
    let k = wide(ticket.kind);
    let a = wide(ticket.a);
    let b = wide(ticket.b);
    let c = wide(ticket.c);
    let after = if ticket.operation == INSERT {
        run_insertion(keep, table, count, k, a, b, c)?
    } else {
        run_deletion(table, count, k, a, b, c)
    };
    Ok(counts_of(count, after))
}

// The same, with the ticket as bytes, whatever they are.
fn run_bytes(keep: bool, table: &mut [Word], ticket: &[u8]) -> Result<Applied, Refusal>
    requires table { Table product table.old }
    ensures answer { AnsweredAs keep result table.new (step product table.old
        ticket.now) }
{
    if ticket.len() != RECORD {
        return Err(Refusal::BadLength);
    }
    run_ticket(keep, table, decode(ticket))
}

// One ticket by its fields on a table known to be consistent.
pub fn apply_ticket(table: &mut [Word], ticket: Ticket) -> Result<Applied, Refusal>
    requires table { Table product table.old }
    ensures answer { Answered result table.new (step product table.old
        (bytes_of ticket)) }
{
    run_ticket(KEEP, table, ticket)
}

// The same, with the ticket as bytes, whatever they are.
pub fn apply_checked(table: &mut [Word], ticket: &[u8]) -> Result<Applied, Refusal>
    requires table { Table product table.old }
    ensures answer { Answered result table.new (step product table.old
        ticket.now) }
{
    run_bytes(KEEP, table, ticket)
}

// The same on a work table: where the ticket is refused, the words are anything.
pub fn try_ticket(work: &mut [Word], ticket: &[u8]) -> Result<Applied, Refusal>
    requires table { Table product work.old }
    ensures answer { AnsweredAs false result work.new (step product work.old
        ticket.now) }
{
    run_bytes(WORK, work, ticket)
}

// One ticket, whatever its bytes, on the words of a table, whatever they are.
pub fn apply(table: &mut [Word], ticket: &[u8]) -> Result<Applied, Refusal>
    ensures answer { Answered result table.new (step product table.old
        ticket.now) }
{
    check(table)?;
    apply_checked(table, ticket)
}
