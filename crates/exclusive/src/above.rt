// The exclusive properties at one or over it.
ghost use Rattle.std.specs.Prelude.{◌≡◌, false, [], ◌∷◌, ℕ, ◌<◌, T};
ghost use Rattle.rdfs.specs.Numbers.{arity};
ghost use Rattle.rdfs.specs.Lists.{◌∈◌, filter};
ghost use Rattle.rdfs.specs.Facts.{excl};
ghost use Rattle.rdfs.specs.Deletion.{under};
ghost use Rattle.table.specs.Answers.{Decides};
ghost use Rattle.table.specs.Counted.{Full, facts_of};
ghost use Rattle.flags.specs.Flags.{Says};
ghost use Rattle.exclusive.specs.Looked.{Looked};
ghost use Rattle.exclusive.specs.Above.{exclusive_above, of_kind, Unflagged};

use flags::words_within;
use table::{EXCLUSIVE, SUBPROPERTY, Word, first_of, has_fact, kind_of, place, word_of};

// The words of kind k: they stand together.
pub fn words_of(facts: &[Word], k: Word) -> &[Word]
    requires facts { Full facts.now }
    requires kind { k < 15 }
    ensures words { result.now ≡ filter (of_kind k) facts.now }
{
    let low = word_of(k, 0, 0, 0);
    let high = word_of(k + 1, 0, 0, 0);
    words_within(facts, low, high)
}

// There may be an exclusive property. Their words are the last of a table.
pub fn has_exclusive(facts: &[Word]) -> bool
    requires facts { Full facts.now }
    ensures none { result ≡ false → (x : ℕ) → excl x ∈ facts_of facts.now → ⊥ }
{
    match facts.last() {
        Some(word) => kind_of(*word) == EXCLUSIVE,
        None => false,
    }
}

// x is b, or below b by a link of kind k.
pub fn is_under(facts: &[Word], k: Word, b: Word, x: Word) -> bool
    requires facts { Looked facts.now (b ∷ x ∷ []) }
    requires kind { arity k ≡ 2 }
    ensures answer { result ≡ under (facts_of facts.now) k b x }
{
    x == b || has_fact(facts, k, x, b, 0)
}

// Flags the exclusive properties at p and over it; answers whether there are any.
pub fn flag_exclusive<'a>(facts: &'a [Word], p: Word, flags: &mut [bool]) -> bool
    requires facts { Unflagged facts.now p flags.old }
    ensures flags { Says flags.new (exclusive_above (facts_of facts.now) p) }
    ensures answer { Decides result ((x : ℕ) × T (exclusive_above (facts_of facts.now) p x)) }
{
    let mut some = false;
    for word in words_of(facts, EXCLUSIVE) {
        let x = first_of(*word);
        if is_under(facts, SUBPROPERTY, x, p) {
            flags[place(x)] = true;
            some = true;
        }
    }
    some
}
