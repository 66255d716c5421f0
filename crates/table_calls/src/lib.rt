// A lent table made fresh, and a word looked up among the facts of one.
//
// The public calls are `fresh` and `lookup`. They have no `requires`: each says, for all inputs, what it
// answers and every word afterwards. The crate assumes nothing.
#![tactic(auto)]

ghost use Rattle.std.specs.Prelude.{◌≡◌};
ghost use Rattle.table.specs.Refused.{answer_of};
ghost use Rattle.table_calls.specs.Calls.{
  fresh_answer,
  fresh_words,
  lookup_answer,
  lookup_present,
  present,
};

use table::{
    CLASS, RESOURCE, Refusal, Word, check_layout, count_facts, has_word, is_bad_size, word_of,
};

// Makes a table fresh: Cl(0), then zeros. Refused with 1, the words are as they were.
pub fn fresh(table: &mut [Word]) -> Result<(), Refusal>
    ensures answer { answer_of result ≡ fresh_answer table.old }
    ensures words { table.new ≡ fresh_words table.old }
{
    if is_bad_size(table) {
        return Err(Refusal::BadSize);
    }
    table[0] = word_of(CLASS, RESOURCE, 0, 0);
    table[1..].fill(0);
    Ok(())
}

// Whether a word is among the facts of a table; refusals 1 and 2. A word that is no fact, 0 too, is not there.
pub fn lookup(table: &[Word], word: Word) -> Result<bool, Refusal>
    ensures answer { answer_of result ≡ lookup_answer table.now }
    ensures present { present result ≡ lookup_present table.now word }
{
    check_layout(table)?;
    let count = count_facts(table);
    Ok(has_word(&table[..count], word))
}
