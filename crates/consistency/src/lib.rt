// The check of a lent table: refusals 1, 2 and 3, the rules visited one by one in the order of Fig. 3.
//
// The public call is `check`. It has no `requires`: it says, for all inputs, what it answers; it writes
// nothing. `count_met` and `first_broken` serve the crates above: on a table that is laid out, how many rules
// are met before the first that is broken, and which that is. The crate assumes nothing. A call takes the
// stack of the index and of a span's stamps, and some hundred bytes; rule E2's links and stamps take less,
// and stand where the index stood.
#![tactic(auto)]

mod visit;

ghost use Rattle.std.specs.Prelude.{◌≡◌, ◌≤◌, T, length};
ghost use Rattle.rdfs.specs.Numbers.{product};
ghost use Rattle.rdfs.specs.Facts.{graph};
ghost use Rattle.rdfs.specs.Words.{laid_out};
ghost use Rattle.rdfs.specs.Refusals.{table_refusal};
ghost use Rattle.table.specs.Counted.{facts_of};
ghost use Rattle.table.specs.Refused.{answer_of};
ghost use Rattle.spans.specs.Spans.{FactWords};
ghost use Rattle.spans.specs.Graphs.{graph_of};
ghost use Rattle.consistency.specs.Order.{rules_in_order, MetFirst, MetIndexed, Answers};

use holders::all_exclusive;
pub use rules::Rule;
use spans::{SPANS, Spans};
use table::{Refusal, Word, check_layout, count_facts};
use visit::{INDEXED, RULES, rule_at, visit};

// How many of the rules before E2 are met before the first that is broken, by an index of spans that is gone
// when it answers.
fn count_indexed(words: &[Word]) -> usize
    requires words { FactWords words.now }
    requires few { length words.now ≤ product.most }
    ensures answer { MetIndexed (graph_of words.now) result }
{
    let mut index = [0u16; SPANS];
    visit(&Spans::new(words, &mut index))
}

// How many rules, in the paper's order, a table meets before the first that it breaks; all if it breaks none.
pub fn count_met(table: &[Word]) -> usize
    requires layout { T (laid_out product 1 table.now) }
    requires size { length table.now ≤ product.most }
    ensures answer { MetFirst (graph (facts_of table.now)) rules_in_order result }
{
    let count = count_facts(table);
    let words = &table[..count];
    let met = count_indexed(words);
    if met < INDEXED {
        return met;
    }
    if all_exclusive(words) {
        return RULES;
    }
    met
}

// The first rule that a table breaks; none, if it meets all.
pub fn first_broken(table: &[Word]) -> Option<Rule>
    requires layout { T (laid_out product 1 table.now) }
    requires size { length table.now ≤ product.most }
    ensures answer { Answers (graph (facts_of table.now)) rules_in_order result }
{
    let met = count_met(table);
    if met < RULES {
        return Some(rule_at(met));
    }
    None
}

// The first of refusals 1, 2 and 3 whose condition holds; if none does, the table is laid out and consistent.
pub fn check(table: &[Word]) -> Result<(), Refusal>
    ensures answer { answer_of result ≡ table_refusal product table.now 0 }
{
    check_layout(table)?;
    if count_met(table) < RULES {
        return Err(Refusal::Inconsistent);
    }
    Ok(())
}
