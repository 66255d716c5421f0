// The tickets of bytes: records of five, and one ticket of what is left over.
ghost use Rattle.std.specs.Prelude.{◌≡◌};
ghost use Rattle.std.specs.Slice.Iter.{chunks_rest, chunks_size};
ghost use Rattle.rdfs.specs.Numbers.{record_length};
ghost use Rattle.list_form.specs.Loops.{tickets_in};

use std::slice::Chunks;
use ticket_form::RECORD;

// How many tickets so many bytes make.
pub fn count_tickets(length: usize) -> usize
    ensures answer { result ≡ tickets_in length }
{
    length.div_ceil(RECORD)
}

// The tickets in turn.
pub fn tickets_of(bytes: &[u8]) -> Chunks<'_, u8>
    ensures rest { chunks_rest result ≡ bytes.now }
    ensures size { chunks_size result ≡ record_length }
{
    bytes.chunks(RECORD)
}
