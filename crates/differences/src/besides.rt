// The words of one ascending list that another lacks: found, written to a run, compared with a run; and those
// of one table that another lacks.
ghost use Rattle.std.specs.Prelude.{◌≡◌, length};
ghost use Rattle.rdfs.specs.Lists.{same_list};
ghost use Rattle.rdfs.specs.Register.{newcomers};
ghost use Rattle.differences.specs.Besides.{Apart, NextBeside, Measured, Missing, missing};

use table::{Word, count_facts};

// A place among the words, and how many of the others have been passed.
#[derive(Clone, Copy)]
pub struct Next {
    pub place: usize,
    pub past: usize,
}

// The first word, from a place on, that the others from a place on lack.
fn next_besides(words: &[Word], others: &[Word], from: Next) -> Next
    requires lists { Apart words.now others.now from.place from.past }
    ensures answer { NextBeside words.now others.now from.place from.past result }
{
    let mut place = from.place;
    for past in from.past..others.len() {
        let word = words[place];
        let other = others[past];
        if word < other {
            return Next { place, past };
        }
        if word == other {
            place += 1;
        }
    }
    Next {
        place,
        past: others.len(),
    }
}

// Writes to a run the words that the others lack.
fn put_besides(words: &[Word], others: &[Word], run: &mut [Word])
    requires lists { Measured words.now others.now run.old }
    ensures words { run.new ≡ newcomers others.now words.now }
{
    let mut from = Next { place: 0, past: 0 };
    for slot in run.iter_mut() {
        let next = next_besides(words, others, from);
        let found = next.place;
        *slot = words[found];
        from = Next {
            place: found + 1,
            past: next.past,
        };
    }
}

// Whether a run is the words that the others lack. It walks as `put_besides` does, but stops at the first
// difference: one walk with a closure would be no plainer, as the walk is a call and a step.
fn is_besides(words: &[Word], others: &[Word], run: &[Word]) -> bool
    requires lists { Measured words.now others.now run.now }
    ensures answer { result ≡ same_list run.now (newcomers others.now
        words.now) }
{
    let mut from = Next { place: 0, past: 0 };
    for word in run {
        let next = next_besides(words, others, from);
        let found = next.place;
        if *word != words[found] {
            return false;
        }
        from = Next {
            place: found + 1,
            past: next.past,
        };
    }
    true
}

// Writes to a run the words of a table that another table lacks.
pub fn put_missing(table: &[Word], other: &[Word], run: &mut [Word])
    requires tables { Missing table.now other.now (length run.old) }
    ensures words { run.new ≡ missing table.now other.now }
{
    let count = count_facts(table);
    let others = count_facts(other);
    put_besides(&table[..count], &other[..others], run);
}

// Whether a run is the words of a table that another table lacks.
pub fn is_missing(table: &[Word], other: &[Word], run: &[Word]) -> bool
    requires tables { Missing table.now other.now (length run.now) }
    ensures answer { result ≡ same_list run.now (missing table.now
        other.now) }
{
    let count = count_facts(table);
    let others = count_facts(other);
    is_besides(&table[..count], &other[..others], run)
}
