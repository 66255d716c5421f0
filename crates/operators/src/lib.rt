// Tickets of shift operators: kinds 3, 4, 9 and 10 only, and with those what plain tickets do.
//
// The public call is `apply_operator`. It has no `requires`: it says, for all words of a table and all bytes
// of a ticket, the answer, both counts and every word afterwards; they are those of the register's step with
// refusal 17 directly after 7. `apply_as` serves the crates above: a ticket of an operator or of anyone, on a
// table known to be consistent. The crate assumes nothing.
#![tactic(auto)]

ghost use Rattle.std.specs.Prelude.{◌≡◌};
ghost use Rattle.rdfs.specs.Numbers.{product};
ghost use Rattle.rdfs.specs.Register.{Table};
ghost use Rattle.rdfs.specs.Operators.{not_for_operators, operator_step, step_as};
ghost use Rattle.ticket_form.specs.TicketForm.{sense};
ghost use Rattle.ticket.specs.Answered.{Answered};
ghost use Rattle.operators.specs.Operator.{is_past_seven, is_barred};

use consistency::check;
use table::{INDIVIDUAL, LITERAL, MEMBER, Refusal, VALUE, Word};
use ticket::{Applied, apply_checked};
use ticket_form::{RECORD, Ticket, check_fields, decode, wide};

// Who sends a ticket: a flag and no enum, as `step_as` of the definitions takes it.
pub const OPERATOR: bool = true;

pub const ANYONE: bool = false;

// The ticket's kind is none that operators enter.
fn is_not_for_operators(ticket: Ticket) -> bool
    ensures answer { result ≡ not_for_operators (sense ticket) }
{
    !matches!(wide(ticket.kind), INDIVIDUAL | LITERAL | MEMBER | VALUE)
}

// None of refusals 5 to 7 holds; 8, which comes after 17, may.
fn is_past_seven(ticket: Ticket) -> bool
    ensures answer { result ≡ is_past_seven (sense ticket) }
{
    check_fields(ticket).is_ok()
}

// Refusal 17 on a consistent table: the kind is not for operators, and none of 4 to 7 holds.
fn is_barred(ticket: &[u8]) -> bool
    ensures answer { result ≡ is_barred ticket.now }
{
    if ticket.len() != RECORD {
        return false;
    }
    let decoded = decode(ticket);
    is_not_for_operators(decoded) && is_past_seven(decoded)
}

// One ticket of an operator, or of anyone, on a table known to be consistent.
pub fn apply_as(operator: bool, table: &mut [Word], ticket: &[u8]) -> Result<Applied, Refusal>
    requires table { Table product table.old }
    ensures answer { Answered result table.new (step_as operator product table.old
        ticket.now) }
{
    if operator && is_barred(ticket) {
        return Err(Refusal::NotForOperators);
    }
    apply_checked(table, ticket)
}

// One ticket of an operator, whatever its bytes, on the words of a table, whatever they are.
pub fn apply_operator(table: &mut [Word], ticket: &[u8]) -> Result<Applied, Refusal>
    ensures answer { Answered result table.new (operator_step product table.old
        ticket.now) }
{
    check(table)?;
    apply_as(OPERATOR, table, ticket)
}
