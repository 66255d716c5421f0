// The words of a text stored: those of the ids that its lines tell of, then those of the lines.
ghost use Rattle.std.specs.Prelude.{◌≡◌, false, [], ◌∷◌, T, length, replicate};
ghost use Rattle.rdfs.specs.Numbers.{product};
ghost use Rattle.rdfs.specs.Refusals.{bad_size};
ghost use Rattle.rdfs.specs.Words.{is_fact, padded};
ghost use Rattle.table.specs.Counted.{Counted};
ghost use Rattle.table.specs.Refused.{answer_of};
ghost use Rattle.triples.specs.TextRead.{all_inside, text_words};
ghost use Rattle.triples.specs.ReadTriples.{text_refusal, ReadTriplesPromise};
ghost use Rattle.triples.specs.Storing.{Stores, ids, flagged_from, Flagged, line_words, text_puts};

use crate::seen::Seen;
use consistency::check;
use flags::IDS;
use table::{INDIVIDUAL, LITERAL, Refusal, Stored, TOP, Word, place, store, word_of};
use triple_form::read_line;

// Puts the word of a fact into a table with `count` facts, and answers how many it has then; none without room.
// What stores takes the table and a number, and no slice of the facts: it writes behind them.
fn store_word(table: &mut [Word], count: usize, word: Word) -> Option<usize>
    requires counted { Counted table.old count }
    requires fact { T (is_fact product word) }
    ensures words { Stores table.old (word ∷ []) table.new result }
{
    match store(table, count, word) {
        Stored::There => Some(count),
        Stored::Added => Some(count + 1),
        Stored::NoRoom => None,
    }
}

// Stores the words of kind k with one id, for each id that is flagged.
fn store_flagged(table: &mut [Word], count: usize, k: Word, flags: &[bool; IDS]) -> Option<usize>
    requires counted { Counted table.old count }
    requires flags { Flagged k flags.now }
    ensures words { Stores table.old (flagged_from k flags.now ids) table.new result }
{
    let mut total = count;
    for n in 0..=TOP {
        if flags[place(n)] {
            total = store_word(table, total, word_of(k, n, 0, 0))?;
        }
    }
    Some(total)
}

// Stores the words of the lines of a text, each of which is inside the profile.
fn store_lines(table: &mut [Word], count: usize, text: &[u8]) -> Option<usize>
    requires counted { Counted table.old count }
    requires inside { T (all_inside product.top text.now) }
    ensures words { Stores table.old (line_words text.now) table.new result }
{
    let mut total = count;
    let mut rest = text;
    while let Some((line, next)) = read_line(rest) {
        total = store_word(table, total, line.word)?;
        rest = next;
    }
    Some(total)
}

// Stores the words of a text whose lines are inside the profile, and of the ids that they have, in a table
// without facts.
fn store_text(table: &mut [Word], text: &[u8], seen: &Seen) -> Option<usize>
    requires empty { Counted table.old 0 }
    requires members { Flagged 3 seen.now.members }
    requires literals { Flagged 4 seen.now.literals }
    requires inside { T (all_inside product.top text.now) }
    ensures words { Stores table.old (text_puts seen.now.members seen.now.literals text.now) table.new result }
{
    let individuals = store_flagged(table, 0, INDIVIDUAL, &seen.members)?;
    let count = store_flagged(table, individuals, LITERAL, &seen.literals)?;
    store_lines(table, count, text)
}

// Stores the words of a text in a table without facts, and checks no rule. Refused with 15 or 11, it is not
// said which words are left.
pub fn fill_text(table: &mut [Word], text: &[u8]) -> Result<(), Refusal>
    requires empty { Counted table.old 0 }
    ensures answer { answer_of result ≡ text_refusal text.now (length table.old) }
    ensures words { answer_of result ≡ 0 → table.new ≡ padded (length table.old)
        (text_words product text.now) }
    ensures size { length table.new ≡ length table.old }
{
    let mut seen = Seen::none();
    let inside = seen.flag_lines(text);
    if !inside || seen.tells_twice() {
        return Err(Refusal::OutsideProfile);
    }
    match store_text(table, text, &seen) {
        Some(_) => Ok(()),
        None => Err(Refusal::TooMany),
    }
}

// Reads a text through a work table of zeros that is as long as the table.
pub fn read_through(table: &mut [Word], work: &mut [Word], text: &[u8]) -> Result<(), Refusal>
    requires size { bad_size product table.old ≡ false }
    requires work { work.old ≡ replicate (length table.old) 0 }
    ensures promise { ReadTriplesPromise table.old text.now (answer_of result)
        table.new }
{
    fill_text(work, text)?;
    check(work)?;
    table.copy_from_slice(work);
    Ok(())
}
