// A test for every word of one kind, in one pass.
ghost use Rattle.std.specs.Prelude.{ℕ};
ghost use Rattle.table.specs.Answers.{Decides};
ghost use Rattle.spans.specs.Sought.{Kind, TwoIds};
ghost use Rattle.spans.specs.Graphs.{Stands};
ghost use Rattle.rules.specs.Tested.{TakesIds, Tested};

use spans::{Spans, words_of_kind};
use table::{Word, first_of, second_of, third_of};

// Whether the ids of every word of kind k pass a test, which is given a, b and c. Each rule's test is
// compiled to a loop of its own.
pub fn all_meet<F: Fn(Word, Word, Word) -> bool>(spans: &Spans, k: Word, test: F) -> bool
    requires kind { Kind k }
    requires test { TakesIds (F.pre test) }
    ensures answer { Tested spans.now.table.now k (F.post test) result }
{
    let words = words_of_kind(spans.table, k);
    for &word in words {
        if !test(first_of(word), second_of(word), third_of(word)) {
            return false;
        }
    }
    true
}

// Whether, for every fact of kind k with the ids a and b, a has the fact of kind l and b that of kind m.
pub fn all_have(spans: &Spans, k: Word, l: Word, m: Word) -> bool
    requires two { TwoIds k }
    requires kinds { Kind l × Kind m }
    ensures answer { Decides result ((a b : ℕ) → Stands spans.now.table.now k a b 0
        → Stands spans.now.table.now l a 0 0 × Stands spans.now.table.now m b 0 0) }
{
    all_meet(spans, k, |a, b, _| spans.has_both(l, a, m, b))
}
