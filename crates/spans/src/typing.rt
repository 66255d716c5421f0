// Tests by ids of the rules on which facts each id must have: 10, 12, 13 and H2.
ghost use Rattle.table.specs.Answers.{Decides};
ghost use Rattle.table.specs.Counted.{Id};
ghost use Rattle.spans.specs.Graphs.{graph_of};
ghost use Rattle.spans.specs.IdTests.{RangeRoles, ValueRoles, UnderResource, LiteralOnly};

use crate::Spans;
use table::{CLASS, INDIVIDUAL, LITERAL, MARK, PROPERTY, RESOURCE, SUBCLASS, Word};

impl<'a> Spans<'a> {
    // Rule 10, for Rng(a,b): a is a property, and b a class unless it is the mark.
    pub fn has_range_roles(&self, a: Word, b: Word) -> bool
        requires ids { Id a × Id b }
        ensures answer { Decides result (RangeRoles (graph_of self.now.table.now) a b) }
    {
        self.has_least(PROPERTY, a) && (b == MARK || self.has_least(CLASS, b))
    }

    // Rule 12, for PI(a,b,c): a is an individual, c a property, and b an individual or a literal.
    pub fn has_value_roles(&self, a: Word, b: Word, c: Word) -> bool
        requires ids { Id a × Id b × Id c }
        ensures answer { Decides result (ValueRoles (graph_of self.now.table.now) a b c) }
    {
        self.has_both(INDIVIDUAL, a, PROPERTY, c)
            && (self.has_least(INDIVIDUAL, b) || self.has_least(LITERAL, b))
    }

    // Rule 13, for Cl(a): a is under Resource unless it is Resource.
    pub fn is_under_resource(&self, a: Word) -> bool
        requires id { Id a }
        ensures answer { Decides result (UnderResource (graph_of self.now.table.now) a) }
    {
        a == RESOURCE || self.has_least(SUBCLASS, a)
    }

    // Rule H2, for Lit(a): a is no class, property or individual.
    pub fn is_literal_only(&self, a: Word) -> bool
        requires id { Id a }
        ensures answer { Decides result (LiteralOnly (graph_of self.now.table.now) a) }
    {
        self.lacks_least(CLASS, a)
            && self.lacks_least(PROPERTY, a)
            && self.lacks_least(INDIVIDUAL, a)
    }
}
