// Where each span of a table's words starts. A span is the words of one kind and one first id.
ghost use Rattle.std.specs.Prelude.{◌≡◌, ◌<◌, length};
ghost use Rattle.table.specs.Counted.{Id};
ghost use Rattle.spans.specs.Spans.{span_at, span_of, entry_of, IsSpan, at};
ghost use Rattle.spans.specs.Spans.{Index, Fillable, FromSpan};
ghost use Rattle.spans.specs.Sought.{Kind};

use crate::Spans;
use table::{KINDS, TOP, Word, first_of, kind_of};

pub const IDS: Word = TOP + 1;

// The number of the first span. Kind 0 has none.
const FIRST: usize = IDS as usize;

pub const SPANS: usize = KINDS as usize * FIRST;

pub fn span_at(k: Word, a: Word) -> usize
    requires kind { Kind k }
    requires id { Id a }
    ensures answer { result ≡ span_at k a }
{
    (k * IDS + a) as usize
}

pub fn span_of(word: Word) -> usize
    ensures answer { result ≡ span_of word }
{
    (kind_of(word) * IDS + first_of(word)) as usize
}

// A span's place in the index.
pub fn entry_of(span: usize) -> usize
    requires span { IsSpan span }
    ensures answer { result ≡ entry_of span }
{
    span - FIRST
}

// The number at a place of an index or of stamps.
pub fn number_at(numbers: &[u16], place: usize) -> usize
    requires place { place < length numbers.now }
    ensures answer { result ≡ at numbers.now place }
{
    usize::from(numbers[place])
}

// Fills the index, which is all 0 at first, from the last word to the first.
pub fn fill_index<'a>(table: &'a [Word], index: &mut [u16])
    requires words { Fillable table.now index.old }
    ensures index { Index table.now index.new }
{
    for at in (0..table.len()).rev() {
        index[entry_of(span_of(table[at]))] = at as u16;
    }
}

impl<'a> Spans<'a> {
    // The words from a span's first on; none if the span has none.
    pub fn from_span(&self, span: usize) -> &'a [Word]
        requires span { IsSpan span }
        ensures words { FromSpan self.now.table.now span result.now }
    {
        let place = number_at(self.index, entry_of(span));
        if place < self.table.len() && span_of(self.table[place]) == span {
            return &self.table[place..];
        }
        &[]
    }
}
