// Words looked for among the words of a table: in their span, and those of one span in one pass over another.
ghost use Rattle.std.specs.Prelude.{◌≡◌, ◌<◌, length};
ghost use Rattle.table.specs.Parts.{kind_of, first_of};
ghost use Rattle.table.specs.Answers.{Decides};
ghost use Rattle.table.specs.Counted.{Id};
ghost use Rattle.spans.specs.Spans.{at, Has, FactWords, NotPast, Below};
ghost use Rattle.spans.specs.Passes.{Covered, Coverable, GroupStart, GroupSoFar, OfKind};
ghost use Rattle.spans.specs.Sought.{Kind};

use crate::Spans;
use crate::index::span_of;
use table::{BASE, Word, second_of, word_of};

// How many words are below the word.
pub fn place_of(table: &[Word], word: Word) -> usize
    requires words { FactWords table.now }
    ensures answer { Below table.now word result }
{
    table.partition_point(|next| *next < word)
}

// The words of kind k, which stand together.
pub fn words_of_kind(table: &[Word], k: Word) -> &[Word]
    requires words { FactWords table.now }
    requires kind { Kind k }
    ensures words { OfKind table.now k result.now }
{
    let from = place_of(table, word_of(k, 0, 0, 0));
    let to = place_of(table, word_of(k + 1, 0, 0, 0));
    &table[from..to]
}

// How many words are below the word, going up from a place that is not past it.
fn place_from(table: &[Word], from: usize, word: Word) -> usize
    requires words { FactWords table.now }
    requires place { NotPast table.now from word }
    ensures answer { Below table.now word result }
{
    for at in from..table.len() {
        if word <= table[at] {
            return at;
        }
    }
    table.len()
}

// Whether the word at a place, if there is one, is the word.
pub fn is_at(table: &[Word], place: usize, word: Word) -> bool
    ensures answer { Decides result ((place < length table.now)
        × (at table.now place ≡ word)) }
{
    place < table.len() && table[place] == word
}

// The place of the first word that has the kind and the first two ids of the word at a place, if `group` is
// that of the word before.
pub fn group_start(table: &[Word], group: usize, place: usize) -> usize
    requires group { GroupSoFar table.now place group }
    ensures answer { GroupStart table.now place result }
{
    if table[group] / BASE == table[place] / BASE {
        return group;
    }
    place
}

impl<'a> Spans<'a> {
    // Whether the word is among the words: it is looked for in its span.
    pub fn is_among(&self, word: Word) -> bool
        requires kind { Kind (kind_of word) }
        requires id { Id (first_of word) }
        ensures answer { Decides result (Has self.now.table.now word) }
    {
        let words = self.from_span(span_of(word));
        for &next in words {
            if word <= next {
                return next == word;
            }
        }
        false
    }

    // Whether each second id of the span, upon a base, is among the words. Both ascend, so one pass over each
    // is enough. No word from the base on stands before the place `from`.
    pub fn is_covered(&self, span: usize, from: usize, base: Word) -> bool
        requires span { Coverable self.now.table.now span from base }
        ensures answer { Decides result (Covered self.now.table.now span base) }
    {
        let links = self.from_span(span);
        let mut place = from;
        for &link in links {
            if span_of(link) != span {
                return true;
            }
            let word = base + second_of(link);
            place = place_from(self.table, place, word);
            if !is_at(self.table, place, word) {
                return false;
            }
        }
        true
    }
}
