// A ticket by its fields, and the record of bytes that stands for it.
ghost use Rattle.std.specs.Prelude.{◌≡◌, length};
ghost use Rattle.rdfs.specs.Numbers.{record_length};
ghost use Rattle.ticket_form.specs.TicketForm.{bytes_of};

use table::Word;

// The bytes of a ticket.
pub const RECORD: usize = 5;

// The operations.
pub const INSERT: u8 = 1;

pub const DELETE: u8 = 2;

// Operation 1 inserts and 2 deletes; kind and ids as in document 01.
#[derive(Clone, Copy)]
pub struct Ticket {
    pub operation: u8,
    pub kind: u8,
    pub a: u8,
    pub b: u8,
    pub c: u8,
}

// The ticket that a record of bytes stands for.
pub fn decode(bytes: &[u8]) -> Ticket
    requires length { length bytes.now ≡ record_length }
    ensures answer { bytes_of result ≡ bytes.now }
{
    Ticket {
        operation: bytes[0],
        kind: bytes[1],
        a: bytes[2],
        b: bytes[3],
        c: bytes[4],
    }
}

// A byte of a ticket as the tables' numbers are.
pub fn wide(byte: u8) -> Word
    ensures answer { result ≡ byte }
{
    byte as Word
}
