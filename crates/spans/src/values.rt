// The rules on the values of individuals: 25 and H3 by ids, and 27.
ghost use Rattle.rdfs.specs.Rules.{Meets, r27};
ghost use Rattle.table.specs.Answers.{Decides};
ghost use Rattle.table.specs.Counted.{Id};
ghost use Rattle.table.specs.Parts.{first_of, second_of, third_of};
ghost use Rattle.spans.specs.Passes.{ValueWord};
ghost use Rattle.spans.specs.Graphs.{graph_of, Inherited, Single};
ghost use Rattle.spans.specs.IdTests.{ObjectMember, ObjectLiteral};

use crate::Spans;
use crate::index::span_at;
use crate::merge::{group_start, place_of};
use table::{LITERAL, MARK, MEMBER, RANGE, SUBPROPERTY, VALUE, Word, third_of, word_of};

impl<'a> Spans<'a> {
    // Rule 25, for PI(a,b,c): b is in the range of c unless that is the mark.
    pub fn is_object_member(&self, b: Word, c: Word) -> bool
        requires ids { Id b × Id c }
        requires ranges { Single self.now.table.now 8 }
        ensures answer { Decides result (ObjectMember (graph_of self.now.table.now) b c) }
    {
        let Some(z) = self.only_second(RANGE, c) else {
            return true;
        };
        z == MARK || self.has_in_span(MEMBER, b, z)
    }

    // Rule H3, for PI(a,b,c): b is a literal if the range of c is the mark.
    pub fn is_object_literal(&self, b: Word, c: Word) -> bool
        requires ids { Id b × Id c }
        requires ranges { Single self.now.table.now 8 }
        ensures answer { Decides result (ObjectLiteral (graph_of self.now.table.now) b c) }
    {
        let Some(z) = self.only_second(RANGE, c) else {
            return true;
        };
        z != MARK || self.has_least(LITERAL, b)
    }

    // Rule 27, for the word of PI(a,b,c): a has the value b for each property over c. No word of a and b
    // stands before the place `group`.
    fn is_inherited(&self, group: usize, word: Word) -> bool
        requires value { ValueWord self.now.table.now group word }
        ensures answer { Decides result (Inherited self.now.table.now (first_of word) (second_of word)
            (third_of word)) }
    {
        let c = third_of(word);
        self.is_covered(span_at(SUBPROPERTY, c), group, word - c)
    }

    // Rule 27, for all: the values of one subject and object stand together, and their place is carried
    // along.
    pub fn all_inherited(&self) -> bool
        ensures answer { Decides result (Meets (graph_of self.now.table.now) r27) }
    {
        let from = place_of(self.table, word_of(VALUE, 0, 0, 0));
        let end = place_of(self.table, word_of(VALUE + 1, 0, 0, 0));
        let mut group = from;
        for at in from..end {
            group = group_start(self.table, group, at);
            if !self.is_inherited(group, self.table[at]) {
                return false;
            }
        }
        true
    }
}
