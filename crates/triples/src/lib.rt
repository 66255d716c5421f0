// The text of a table in a profile of N-Triples, written into lent bytes and read into a lent table.
//
// The public calls are `write_triples` and `read_triples`. They have no `requires`: each says, for all
// inputs, what it answers and every word or byte afterwards. `write_checked` and `fill_text` serve the crate
// above: writing without the check, and the words of a text without it. The crate assumes nothing.
#![tactic(auto)]

ghost use Rattle.std.specs.Prelude.{length};
ghost use Rattle.rdfs.specs.Numbers.{product};
ghost use Rattle.rdfs.specs.Register.{Table};
ghost use Rattle.table.specs.Refused.{answer_of};
ghost use Rattle.triples.specs.WriteTriples.{WriteTriplesPromise};
ghost use Rattle.triples.specs.ReadTriples.{ReadTriplesPromise};

mod reader;
mod seen;
mod writer;

use consistency::check;
use flags::IDS;
pub use reader::fill_text;
use reader::read_through;
use table::{MOST, Refusal, Word, count_facts, is_bad_size};
use writer::{flag_literals, put_text, text_length};

// Writes the text of a table, and answers its length. The bytes after it are untouched. Refused with 1, 2, 3
// or 13, all bytes are as they were.
pub fn write_triples(table: &[Word], output: &mut [u8]) -> Result<usize, Refusal>
    ensures promise { WriteTriplesPromise table.now output.old result
        output.new }
{
    check(table)?;
    write_checked(table, output)
}

// Writes the text of a table known to be consistent. Only 13 can come.
pub fn write_checked(table: &[Word], output: &mut [u8]) -> Result<usize, Refusal>
    requires table { Table product table.now }
    ensures promise { WriteTriplesPromise table.now output.old result
        output.new }
{
    let count = count_facts(table);
    let facts = &table[..count];
    let mut literals = [false; IDS];
    flag_literals(facts, &mut literals);
    let length = text_length(facts, &literals);
    if output.len() < length {
        return Err(Refusal::ShortOutput);
    }
    put_text(facts, &literals, output);
    Ok(length)
}

// Reads a text into a table: the words of its facts, then zeros. Refused with 1, 15, 11 or 3, the words are
// as they were. The words that the table held are not looked at.
pub fn read_triples(table: &mut [Word], text: &[u8]) -> Result<(), Refusal>
    ensures promise { ReadTriplesPromise table.old text.now (answer_of result)
        table.new }
{
    if is_bad_size(table) {
        return Err(Refusal::BadSize);
    }
    let room = table.len();
    let mut work: [Word; MOST] = [0; MOST];
    read_through(table, &mut work[..room], text)
}
