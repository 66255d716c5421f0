// Rule E2 of the check: no value has two holders through an exclusive property. x holds the value y through
// the property z by PI(x,y,z).
//
// `all_exclusive` requires words of facts that ascend, no more than a table has, and writes none of them. The
// crate assumes nothing. The words of one property's values stand apart, so links join them in one pass, and
// those of each exclusive property are gone through once: the time grows with the number of values and of
// exclusive properties, not with their product. Where no property is exclusive, one comparison tells.
//
// Links and stamps take 5,120 bytes of stack: two for each of 2,048 words and for twice 256 ids. With ids up
// to 4,095 and 16,384 words they would take 49,152.
#![tactic(auto)]

mod links;
mod walk;

ghost use Rattle.std.specs.Prelude.{◌≤◌, length};
ghost use Rattle.rdfs.specs.Numbers.{product};
ghost use Rattle.rdfs.specs.Rules.{Meets, e2};
ghost use Rattle.table.specs.Answers.{Decides};
ghost use Rattle.spans.specs.Spans.{FactWords};
ghost use Rattle.spans.specs.Graphs.{graph_of};
ghost use Rattle.holders.specs.Values.{AllHeldOnce, HasExclusive};

use links::link_values;
use table::{EXCLUSIVE, MOST, TOP, Word, kind_of};
use walk::each_held_once;

const IDS: usize = TOP as usize + 1;

const LINKS: usize = MOST + IDS;

// Whether a property is exclusive. No kind is higher: the last word tells. Crate `exclusive` asks the same of
// facts and promises less; it does not stand on `spans`, whose words these are.
fn has_exclusive(table: &[Word]) -> bool
    requires words { FactWords table.now }
    ensures answer { Decides result (HasExclusive table.now) }
{
    match table {
        [.., last] => kind_of(*last) == EXCLUSIVE,
        [] => false,
    }
}

// Whether each value of each exclusive property has one holder: by links and stamps of its own.
fn all_held_once(table: &[Word]) -> bool
    requires words { FactWords table.now }
    requires few { length table.now ≤ product.most }
    ensures answer { Decides result (AllHeldOnce table.now) }
{
    let mut links = [0u16; LINKS];
    link_values(table, &mut links);
    let mut seen = [0u16; IDS];
    each_held_once(table, &links, &mut seen)
}

// Rule E2.
pub fn all_exclusive(table: &[Word]) -> bool
    requires words { FactWords table.now }
    requires few { length table.now ≤ product.most }
    ensures answer { Decides result (Meets (graph_of table.now) e2) }
{
    !has_exclusive(table) || all_held_once(table)
}
