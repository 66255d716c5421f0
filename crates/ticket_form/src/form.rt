// Refusals 5, 6 and 8, and the first of 5 to 7 or to 8.
ghost use Rattle.std.specs.Prelude.{◌≡◌, eqb};
ghost use Rattle.rdfs.specs.Numbers.{product};
ghost use Rattle.rdfs.specs.Refusals.{first_true, field_tests};
ghost use Rattle.rdfs.specs.Tickets.{bad_operation, bad_kind, guarded};
ghost use Rattle.table.specs.Refused.{answer_of};
ghost use Rattle.ticket_form.specs.TicketForm.{sense, form_refusal};

use crate::fields::{DELETE, INSERT, Ticket, wide};
use crate::ids::has_bad_ids;
use table::{
    CLASS, EXCLUSIVE, INDIVIDUAL, LITERAL, MEMBER, PROPERTY, RESOURCE, Refusal, SUBCLASS,
    SUBPROPERTY, VALUE,
};

// Refusal 5.
fn is_bad_operation(ticket: Ticket) -> bool
    ensures answer { result ≡ bad_operation (sense ticket) }
{
    !matches!(ticket.operation, INSERT | DELETE)
}

// Refusal 6: Dom and Rng are no tickets.
fn is_bad_kind(ticket: Ticket) -> bool
    ensures answer { result ≡ bad_kind (sense ticket) }
{
    !matches!(
        wide(ticket.kind),
        CLASS
            | PROPERTY
            | INDIVIDUAL
            | LITERAL
            | SUBCLASS
            | SUBPROPERTY
            | MEMBER
            | VALUE
            | EXCLUSIVE
    )
}

// The id x is rdfs:Resource.
fn is_resource(x: u8) -> bool
    ensures answer { result ≡ eqb x 0 }
{
    wide(x) == RESOURCE
}

// Refusal 8: Cl(0), which every table keeps, and the links that rules 13 and 14 ask for.
fn is_guarded(ticket: Ticket) -> bool
    ensures answer { result ≡ guarded (sense ticket) }
{
    ticket.operation == DELETE
        && match wide(ticket.kind) {
            CLASS => is_resource(ticket.a),
            SUBCLASS | MEMBER => is_resource(ticket.b),
            _ => false,
        }
}

// The first of refusals 5 to 7 whose condition holds, if one does.
pub fn check_fields(ticket: Ticket) -> Result<(), Refusal>
    ensures answer { answer_of result ≡ first_true (field_tests product (sense ticket)) }
{
    if is_bad_operation(ticket) {
        return Err(Refusal::BadOperation);
    }
    if is_bad_kind(ticket) {
        return Err(Refusal::BadKind);
    }
    if has_bad_ids(ticket) {
        return Err(Refusal::BadIds);
    }
    Ok(())
}

// The first of refusals 5 to 8 whose condition holds, if one does.
pub fn check_form(ticket: Ticket) -> Result<(), Refusal>
    ensures answer { answer_of result ≡ form_refusal (sense ticket) }
{
    check_fields(ticket)?;
    if is_guarded(ticket) {
        return Err(Refusal::Guarded);
    }
    Ok(())
}
