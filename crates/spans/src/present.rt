// Tests by ids that several rules share: whether a fact stands, and the facts of one kind and one first id.
ghost use Rattle.std.specs.Prelude.{◌≡◌, ℕ};
ghost use Rattle.table.specs.Answers.{Decides};
ghost use Rattle.table.specs.Counted.{Id};
ghost use Rattle.spans.specs.Sought.{Kind, TwoIds};
ghost use Rattle.spans.specs.Graphs.{Stands, Single, OnlySecond};

use crate::Spans;
use crate::index::{entry_of, number_at, span_at, span_of};
use crate::merge::is_at;
use table::{Word, second_of, word_of};

impl<'a> Spans<'a> {
    // Whether the fact of kind k with the ids a and b is there: it is looked for in its span.
    pub fn has_in_span(&self, k: Word, a: Word, b: Word) -> bool
        requires kind { Kind k }
        requires ids { Id a × Id b }
        ensures answer { Decides result (Stands self.now.table.now k a b 0) }
    {
        self.is_among(word_of(k, a, b, 0))
    }

    // The opposite by a name of its own: rules 19 and 21 are said so.
    pub fn lacks_in_span(&self, k: Word, a: Word, b: Word) -> bool
        requires kind { Kind k }
        requires ids { Id a × Id b }
        ensures answer { Decides result (Stands self.now.table.now k a b 0 → ⊥) }
    {
        !self.has_in_span(k, a, b)
    }

    // Whether the fact of kind k with a as its only id, or with Resource beside it, is there: it would be the
    // first word of its span.
    pub fn has_least(&self, k: Word, a: Word) -> bool
        requires kind { Kind k }
        requires id { Id a }
        ensures answer { Decides result (Stands self.now.table.now k a 0 0) }
    {
        let place = number_at(self.index, entry_of(span_at(k, a)));
        is_at(self.table, place, word_of(k, a, 0, 0))
    }

    // The opposite by a name of its own: rules 4 to 6 are said so.
    pub fn lacks_least(&self, k: Word, a: Word) -> bool
        requires kind { Kind k }
        requires id { Id a }
        ensures answer { Decides result (Stands self.now.table.now k a 0 0 → ⊥) }
    {
        !self.has_least(k, a)
    }

    // Whether a has the fact of kind k, and b that of kind l, both kinds with one id.
    pub fn has_both(&self, k: Word, a: Word, l: Word, b: Word) -> bool
        requires kinds { Kind k × Kind l }
        requires ids { Id a × Id b }
        ensures answer { Decides result (Stands self.now.table.now k a 0 0
            × Stands self.now.table.now l b 0 0) }
    {
        self.has_least(k, a) && self.has_least(l, b)
    }

    // Whether a has a fact of kind k, a kind with two ids.
    pub fn has_some(&self, k: Word, a: Word) -> bool
        requires kind { TwoIds k }
        requires id { Id a }
        ensures answer { Decides result ((y : ℕ) × Stands self.now.table.now k a y 0) }
    {
        !self.from_span(span_at(k, a)).is_empty()
    }

    // The b of a's only fact of kind k, if a has one.
    pub fn only_second(&self, k: Word, a: Word) -> Option<Word>
        requires kind { TwoIds k }
        requires id { Id a }
        requires single { Single self.now.table.now k }
        ensures answer { OnlySecond self.now.table.now k a result }
    {
        match self.from_span(span_at(k, a)) {
            [word, ..] => Some(second_of(*word)),
            [] => None,
        }
    }

    // Whether b is the second id of each fact of kind k that a has.
    pub fn is_only(&self, k: Word, a: Word, b: Word) -> bool
        requires kind { TwoIds k }
        requires ids { Id a × Id b }
        ensures answer { Decides result ((z : ℕ) → Stands self.now.table.now k a z 0 → b ≡ z) }
    {
        let span = span_at(k, a);
        match self.from_span(span) {
            [] => true,
            [word] => second_of(*word) == b,
            [word, next, ..] => second_of(*word) == b && span_of(*next) != span,
        }
    }
}
