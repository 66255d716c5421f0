// Refusal 7: an unused byte not 0, the mark misplaced, an id above the highest.
ghost use Rattle.std.specs.Prelude.{◌≡◌};
ghost use Rattle.rdfs.specs.Numbers.{product};
ghost use Rattle.rdfs.specs.Tickets.{makes_property, used, unused_not_zero, mark_misplaced, above_highest, bad_ids};
ghost use Rattle.ticket_form.specs.TicketForm.{sense};

use crate::fields::{INSERT, Ticket, wide};
use table::{MARK, PROPERTY, TOP, Word, arity_of};

// The ids of an insertion of kind 2: a property, its domain, its range.
const PROPERTY_IDS: Word = 3;

// An insertion of kind 2: b is the domain and c the range.
fn makes_property(ticket: Ticket) -> bool
    ensures answer { result ≡ makes_property (sense ticket) }
{
    ticket.operation == INSERT && wide(ticket.kind) == PROPERTY
}

// How many ids a ticket uses.
fn used_ids(ticket: Ticket) -> Word
    ensures answer { result ≡ used (sense ticket) }
{
    if makes_property(ticket) {
        PROPERTY_IDS
    } else {
        arity_of(wide(ticket.kind))
    }
}

// An unused byte is not 0.
fn has_unused_byte(ticket: Ticket) -> bool
    ensures answer { result ≡ unused_not_zero (sense ticket) }
{
    let ids = used_ids(ticket);
    ids < 2 && ticket.b != 0 || ids < 3 && ticket.c != 0
}

// The mark stands elsewhere than as c of an insertion of kind 2.
fn has_misplaced_mark(ticket: Ticket) -> bool
    ensures answer { result ≡ mark_misplaced (sense ticket) }
{
    wide(ticket.a) == MARK
        || wide(ticket.b) == MARK
        || wide(ticket.c) == MARK && !makes_property(ticket)
}

// An id is above the highest. No byte is, as long as the highest id is 255.
fn has_high_id(ticket: Ticket) -> bool
    ensures answer { result ≡ above_highest product.top (sense ticket) }
{
    TOP < wide(ticket.a) || TOP < wide(ticket.b) || TOP < wide(ticket.c)
}

// Refusal 7.
pub fn has_bad_ids(ticket: Ticket) -> bool
    ensures answer { result ≡ bad_ids product.top (sense ticket) }
{
    has_unused_byte(ticket) || has_misplaced_mark(ticket) || has_high_id(ticket)
}
