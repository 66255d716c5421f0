// Tests by ids of the rules on domains and ranges of properties: 15, 22, 23 and H4.
ghost use Rattle.table.specs.Answers.{Decides};
ghost use Rattle.table.specs.Counted.{Id};
ghost use Rattle.spans.specs.Graphs.{graph_of, Single};
ghost use Rattle.spans.specs.IdTests.{DomainAndRange, LinkedDomains, LinkedRanges, LikeRanges};

use crate::Spans;
use table::{DOMAIN, MARK, RANGE, SUBCLASS, Word};

impl<'a> Spans<'a> {
    // Rule 15, for Pr(a): a has a domain and a range.
    pub fn has_domain_and_range(&self, a: Word) -> bool
        requires id { Id a }
        ensures answer { Decides result (DomainAndRange (graph_of self.now.table.now) a) }
    {
        self.has_some(DOMAIN, a) && self.has_some(RANGE, a)
    }

    // Rule 22, for PSub(a,b): the domain of a is that of b or under it.
    pub fn has_linked_domains(&self, a: Word, b: Word) -> bool
        requires ids { Id a × Id b }
        requires domains { Single self.now.table.now 7 }
        ensures answer { Decides result (LinkedDomains (graph_of self.now.table.now) a b) }
    {
        let Some(y) = self.only_second(DOMAIN, a) else {
            return true;
        };
        let Some(z) = self.only_second(DOMAIN, b) else {
            return true;
        };
        y == z || self.has_in_span(SUBCLASS, y, z)
    }

    // Rule 23, for PSub(a,b): the same for the ranges where neither is the mark.
    pub fn has_linked_ranges(&self, a: Word, b: Word) -> bool
        requires ids { Id a × Id b }
        requires ranges { Single self.now.table.now 8 }
        ensures answer { Decides result (LinkedRanges (graph_of self.now.table.now) a b) }
    {
        let Some(y) = self.only_second(RANGE, a) else {
            return true;
        };
        let Some(z) = self.only_second(RANGE, b) else {
            return true;
        };
        if y == z || y == MARK || z == MARK {
            return true;
        }
        self.has_in_span(SUBCLASS, y, z)
    }

    // Rule H4, for PSub(a,b): the ranges are both the mark, or neither is.
    pub fn has_like_ranges(&self, a: Word, b: Word) -> bool
        requires ids { Id a × Id b }
        requires ranges { Single self.now.table.now 8 }
        ensures answer { Decides result (LikeRanges (graph_of self.now.table.now) a b) }
    {
        let Some(y) = self.only_second(RANGE, a) else {
            return true;
        };
        let Some(z) = self.only_second(RANGE, b) else {
            return true;
        };
        (y == MARK) == (z == MARK)
    }
}
