// The order of the rules, and the visit of all but E2 one by one. It gets past each exactly if it is met.
ghost use Rattle.std.specs.Prelude.{◌≡◌, ◌<◌, length};
ghost use Rattle.spans.specs.Graphs.{graph_of};
ghost use Rattle.rules.specs.RuleOf.{rule_of};
ghost use Rattle.consistency.specs.Order.{rule_at, rules_in_order, MetIndexed};

use rules::{Rule, meets};
use spans::Spans;

pub const RULES: usize = 30;
// Those before E2, which are tested by the index of spans.
pub const INDEXED: usize = RULES - 1;

// Fig. 3 from 4 to 27 as printed, then H1 to H4 of document 01, then the two of Ask 3 of document 02.
const ORDER: [Rule; RULES] = [
    Rule::R4,
    Rule::R5,
    Rule::R6,
    Rule::R7,
    Rule::R8,
    Rule::R9,
    Rule::R10,
    Rule::R11,
    Rule::R12,
    Rule::R13,
    Rule::R14,
    Rule::R15,
    Rule::R16,
    Rule::R17,
    Rule::R18,
    Rule::R19,
    Rule::R20,
    Rule::R21,
    Rule::R22,
    Rule::R23,
    Rule::R24,
    Rule::R25,
    Rule::R26,
    Rule::R27,
    Rule::H1,
    Rule::H2,
    Rule::H3,
    Rule::H4,
    Rule::E1,
    Rule::E2,
];

// The rule at a place in the order.
pub fn rule_at(place: usize) -> Rule
    requires place { place < length rules_in_order }
    ensures answer { rule_of result ≡ rule_at rules_in_order place }
{
    ORDER[place]
}

// How many of the rules before E2 are met before the first that is broken; all, if none is. A number, since
// it goes across the C interface.
pub fn visit(spans: &Spans) -> usize
    ensures answer { MetIndexed (graph_of spans.now.table.now) result }
{
    for at in 0..INDEXED {
        if !meets(spans, rule_at(at)) {
            return at;
        }
    }
    INDEXED
}
