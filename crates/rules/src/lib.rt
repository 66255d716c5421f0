// The rules one by one, each with its own pass over the words of a table with the index of their spans.
//
// `meets` serves the check of a table. What the rules before one show is required where its test relies on
// it. Nothing is written. The crate assumes nothing.
#![tactic(auto)]

ghost use Rattle.rdfs.specs.Rules.{Meets};
ghost use Rattle.table.specs.Answers.{Decides};
ghost use Rattle.spans.specs.Graphs.{graph_of};
ghost use Rattle.rules.specs.RuleOf.{rule_of};
ghost use Rattle.rules.specs.Earlier.{Earlier};

use each::{all_have, all_meet};
use spans::Spans;
use table::{
    CLASS, DOMAIN, EXCLUSIVE, INDIVIDUAL, LITERAL, MEMBER, PROPERTY, RANGE, RESOURCE, SUBCLASS,
    SUBPROPERTY, VALUE,
};

mod each;

// The rules by their numbers in Fig. 3, H1 to H4 of document 01, E1 and E2 of document 02.
#[derive(Clone, Copy, Debug)]
pub enum Rule {
    R4,
    R5,
    R6,
    R7,
    R8,
    R9,
    R10,
    R11,
    R12,
    R13,
    R14,
    R15,
    R16,
    R17,
    R18,
    R19,
    R20,
    R21,
    R22,
    R23,
    R24,
    R25,
    R26,
    R27,
    H1,
    H2,
    H3,
    H4,
    E1,
    E2,
}

// Whether a rule is met: a test for every word of one kind, or a pass of its own. What the rules before it
// have shown is required where its test relies on it. E2 is not asked for: it has no use of the index.
pub fn meets(spans: &Spans, rule: Rule) -> bool
    requires earlier { Earlier (graph_of spans.now.table.now) (rule_of rule) }
    ensures answer { Decides result (Meets (graph_of spans.now.table.now) (rule_of rule)) }
{
    match rule {
        Rule::R4 => all_meet(spans, CLASS, |a, _, _| spans.lacks_least(PROPERTY, a)),
        Rule::R5 => all_meet(spans, CLASS, |a, _, _| spans.lacks_least(INDIVIDUAL, a)),
        Rule::R6 => all_meet(spans, PROPERTY, |a, _, _| spans.lacks_least(INDIVIDUAL, a)),
        Rule::R7 => all_have(spans, SUBCLASS, CLASS, CLASS),
        Rule::R8 => all_have(spans, SUBPROPERTY, PROPERTY, PROPERTY),
        Rule::R9 => all_have(spans, DOMAIN, PROPERTY, CLASS),
        Rule::R10 => all_meet(spans, RANGE, |a, b, _| spans.has_range_roles(a, b)),
        Rule::R11 => all_have(spans, MEMBER, INDIVIDUAL, CLASS),
        Rule::R12 => all_meet(spans, VALUE, |a, b, c| spans.has_value_roles(a, b, c)),
        Rule::R13 => all_meet(spans, CLASS, |a, _, _| spans.is_under_resource(a)),
        Rule::R14 => all_meet(spans, INDIVIDUAL, |a, _, _| spans.has_least(MEMBER, a)),
        Rule::R15 => all_meet(spans, PROPERTY, |a, _, _| spans.has_domain_and_range(a)),
        Rule::R16 => all_meet(spans, DOMAIN, |a, b, _| spans.is_only(DOMAIN, a, b)),
        Rule::R17 => all_meet(spans, RANGE, |a, b, _| spans.is_only(RANGE, a, b)),
        Rule::R18 => spans.all_carried(SUBCLASS, SUBCLASS),
        Rule::R19 => all_meet(spans, SUBCLASS, |a, b, _| {
            spans.lacks_in_span(SUBCLASS, b, a)
        }),
        Rule::R20 => spans.all_carried(SUBPROPERTY, SUBPROPERTY),
        Rule::R21 => all_meet(spans, SUBPROPERTY, |a, b, _| {
            spans.lacks_in_span(SUBPROPERTY, b, a)
        }),
        Rule::R22 => all_meet(spans, SUBPROPERTY, |a, b, _| spans.has_linked_domains(a, b)),
        Rule::R23 => all_meet(spans, SUBPROPERTY, |a, b, _| spans.has_linked_ranges(a, b)),
        Rule::R24 => spans.all_subjects(),
        Rule::R25 => all_meet(spans, VALUE, |_, b, c| spans.is_object_member(b, c)),
        Rule::R26 => spans.all_carried(MEMBER, SUBCLASS),
        Rule::R27 => spans.all_inherited(),
        Rule::H1 => spans.has_least(CLASS, RESOURCE),
        Rule::H2 => all_meet(spans, LITERAL, |a, _, _| spans.is_literal_only(a)),
        Rule::H3 => all_meet(spans, VALUE, |_, b, c| spans.is_object_literal(b, c)),
        Rule::H4 => all_meet(spans, SUBPROPERTY, |a, b, _| spans.has_like_ranges(a, b)),
        Rule::E1 => all_meet(spans, EXCLUSIVE, |a, _, _| spans.has_least(PROPERTY, a)),
        Rule::E2 => false,
    }
}
