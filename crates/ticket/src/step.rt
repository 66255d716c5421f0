// The inner steps: a ticket past the refusals that need no table, on a consistent table.
ghost use Rattle.std.specs.Prelude.{◌≡◌, false, ◌≤◌, length, Ok};
ghost use Rattle.rdfs.specs.Numbers.{product};
ghost use Rattle.rdfs.specs.Words.{padded};
ghost use Rattle.rdfs.specs.Register.{step};
ghost use Rattle.ticket_form.specs.TicketForm.{record_of};
ghost use Rattle.ticket.specs.Ready.{Ready, Possible};
ghost use Rattle.ticket.specs.Answered.{Stepped, SteppedAs};

use clash::clashes;
use deletion::delete;
use insertion::grow;
use table::{MOST, Refusal, Word};
use ticket_form::{has_asked, is_unknown_class, is_unknown_property};

// Makes a table the saved words, then zeros.
fn put_back(table: &mut [Word], saved: &[Word])
    requires room { length saved.now ≤ length table.old }
    ensures words { table.new ≡ padded (length table.old) saved.now }
{
    let count = saved.len();
    table[..count].copy_from_slice(saved);
    table[count..].fill(0);
}

// Puts the asked facts in with what follows from them. The words of the table's facts are saved first and
// put back where the new graph does not fit.
fn insert_saving(
    table: &mut [Word],
    saved: &mut [Word],
    count: usize,
    k: Word,
    a: Word,
    b: Word,
    c: Word,
) -> Result<usize, Refusal>
    requires ticket { Possible table.old count k a b c }
    requires saved { length saved.old ≡ count }
    ensures answer { Stepped count result table.new (step product table.old
        (record_of 1 k a b c)) }
{
    saved.copy_from_slice(&table[..count]);
    let grown = grow(table, count, k, a, b, c);
    let Some(after) = grown else {
        put_back(table, saved);
        return Err(Refusal::TooMany);
    };
    Ok(after)
}

// The same, with room of its own for the saved words.
fn insert_possible(
    table: &mut [Word],
    count: usize,
    k: Word,
    a: Word,
    b: Word,
    c: Word,
) -> Result<usize, Refusal>
    requires ticket { Possible table.old count k a b c }
    ensures answer { Stepped count result table.new (step product table.old
        (record_of 1 k a b c)) }
{
    let mut saved = [0; MOST];
    insert_saving(table, &mut saved[..count], count, k, a, b, c)
}

// The same on a work table: nothing is saved, and where the new graph does not fit the words are anything, so
// that the two promise different words.
fn insert_unsaved(
    table: &mut [Word],
    count: usize,
    k: Word,
    a: Word,
    b: Word,
    c: Word,
) -> Result<usize, Refusal>
    requires ticket { Possible table.old count k a b c }
    ensures answer { SteppedAs false count result table.new (step product table.old
        (record_of 1 k a b c)) }
{
    grow(table, count, k, a, b, c).ok_or(Refusal::TooMany)
}

// An insertion. One that is refused with 9, 16 or 10, or whose asked facts are all there, costs a few lookups
// and saves nothing.
pub fn run_insertion(
    keep: bool,
    table: &mut [Word],
    count: usize,
    k: Word,
    a: Word,
    b: Word,
    c: Word,
) -> Result<usize, Refusal>
    requires ticket { Ready table.old count 1 k a b c }
    ensures answer { SteppedAs keep count result table.new (step product table.old
        (record_of 1 k a b c)) }
{
    let facts = &table[..count];
    if is_unknown_property(facts, k, a, b, c) {
        return Err(Refusal::UnknownProperty);
    }
    if has_asked(facts, k, a, b, c) {
        return Ok(count);
    }
    if is_unknown_class(facts, k, a, b, c) {
        return Err(Refusal::UnknownClass);
    }
    if clashes(facts, k, a, b, c) {
        return Err(Refusal::Clashing);
    }
    if keep {
        insert_possible(table, count, k, a, b, c)
    } else {
        insert_unsaved(table, count, k, a, b, c)
    }
}

// A deletion; answers how many facts are left. One whose fact is gone costs a lookup and changes nothing.
pub fn run_deletion(table: &mut [Word], count: usize, k: Word, a: Word, b: Word, c: Word) -> usize
    requires ticket { Ready table.old count 2 k a b c }
    ensures answer { Stepped count (Ok result) table.new (step product table.old
        (record_of 2 k a b c)) }
{
    delete(table, count, k, a, b, c)
}
