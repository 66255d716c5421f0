// The search among words that ascend, as the facts of a table do.
ghost use Rattle.std.specs.Prelude.{◌≡◌, ℕ, ◌+◌, ◌≤◌, length};
ghost use Rattle.rdfs.specs.Lists.{Ascending, member};
ghost use Rattle.rdfs.specs.Facts.{made, has};
ghost use Rattle.table.specs.Found.{below, found};
ghost use Rattle.table.specs.Turning.{TurnsAt};
ghost use Rattle.table.specs.Counted.{Full, Formed, facts_of};

use crate::words::{Word, is_below, word_of};

// How many words come before the first for which a test is 0, where it is 1 for all before that one and 0 from
// there on; by halving: the number is from `low` to `low + size`. `is_below` tests without a branch; std's
// `partition_point` was tried, and takes 8 % longer.
pub(crate) fn count_before<F: Fn(Word) -> usize>(words: &[Word], test: F) -> usize
    requires calls { F.IsAlwaysCallable test }
    requires bit { (word bit : ℕ) → F.post test word bit → bit ≤ 1 }
    ensures count { (number : ℕ) → number ≤ length words.now
        → TurnsAt (F.post test) words.now number → result ≡ number }
{
    if words.is_empty() {
        return 0;
    }
    let mut low = 0;
    let mut size = words.len();
    while 1 < size {
        let half = size / 2;
        low += half * test(words[low + half]);
        size -= half;
    }
    low + test(words[low])
}

// How many words are below a word.
pub fn count_below(words: &[Word], word: Word) -> usize
    requires words { Ascending words.now }
    ensures answer { result ≡ below words.now word }
{
    count_before(words, |other| is_below(other, word))
}

// How many words are at most a word, of which at least `from` are: a walk up from there.
#[tactic(auto, using(crate::proofs::Below::below_laws))]
pub fn count_up_to(words: &[Word], word: Word, from: usize) -> usize
    requires words { Ascending words.now }
    requires from { from ≤ below words.now (word + 1) }
    ensures answer { result ≡ below words.now (word + 1) }
{
    for place in from..words.len() {
        if word < words[place] {
            return place;
        }
    }
    words.len()
}

// Where a word stands, or where it would go. std's `binary_search` was tried, and takes 7 % longer.
pub fn find(words: &[Word], word: Word) -> Result<usize, usize>
    requires words { Ascending words.now }
    ensures answer { result ≡ found words.now word }
{
    let place = count_below(words, word);
    if place < words.len() && words[place] == word {
        Ok(place)
    } else {
        Err(place)
    }
}

// Whether a word is one of them.
pub fn has_word(words: &[Word], word: Word) -> bool
    requires words { Ascending words.now }
    ensures answer { result ≡ member words.now word }
{
    find(words, word).is_ok()
}

// Whether a fact is one of those of a table without its zeros.
pub fn has_fact(facts: &[Word], k: Word, a: Word, b: Word, c: Word) -> bool
    requires facts { Full facts.now }
    requires fact { Formed k a b c }
    ensures answer { result ≡ has (facts_of facts.now) (made k a b c) }
{
    has_word(facts, word_of(k, a, b, c))
}
