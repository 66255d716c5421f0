// The layout of a table: facts ascending, then zeros; how many facts there are.
ghost use Rattle.std.specs.Prelude.{◌≡◌, T, length};
ghost use Rattle.rdfs.specs.Numbers.{product};
ghost use Rattle.rdfs.specs.Words.{laid_out, filled};
ghost use Rattle.rdfs.specs.Refusals.{bad_size, layout_refusal};
ghost use Rattle.table.specs.Refused.{answer_of};
ghost use Rattle.table.specs.Layout.{zeros, Rising};

use crate::refusals::Refusal;
use crate::search::count_before;
use crate::words::{MOST, Word, is_below, is_fact};

// Refusal 1: whether a table has no words, or more than the most.
pub fn is_bad_size(table: &[Word]) -> bool
    ensures answer { result ≡ bad_size product table.now }
{
    table.is_empty() || MOST < table.len()
}

// How many words, from the first on, are facts above the word before.
fn count_rising(table: &[Word]) -> usize
    ensures answer { Rising table.now result }
{
    let mut last: Word = 0;
    for (place, word) in table.iter().enumerate() {
        if *word <= last || !is_fact(*word) {
            return place;
        }
        last = *word;
    }
    table.len()
}

// Whether words are zeros, by the highest of them: with no return from the loop it is compiled to several
// words at a time, as `iter().all(..)` is not.
fn is_zero(words: &[Word]) -> bool
    ensures answer { result ≡ zeros words.now }
{
    let mut highest: Word = 0;
    for word in words {
        highest = highest.max(*word);
    }
    highest == 0
}

// Whether a table is laid out: facts ascending, none twice, then zeros to the end.
pub fn is_laid_out(table: &[Word]) -> bool
    ensures answer { result ≡ laid_out product 1 table.now }
{
    let count = count_rising(table);
    is_zero(&table[count..])
}

// The first of refusals 1 and 2 whose condition holds, if one does.
pub fn check_layout(table: &[Word]) -> Result<(), Refusal>
    ensures answer { answer_of result ≡ layout_refusal product table.now 0 }
{
    if is_bad_size(table) {
        return Err(Refusal::BadSize);
    }
    if !is_laid_out(table) {
        return Err(Refusal::BadLayout);
    }
    Ok(())
}

// How many facts a table has: how many words come before its first zero.
pub fn count_facts(table: &[Word]) -> usize
    requires laid { T (laid_out product 1 table.now) }
    ensures answer { result ≡ length (filled table.now) }
{
    count_before(table, |word| is_below(0, word))
}
