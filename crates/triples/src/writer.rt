// The text of a table: the literals flagged, the length measured, the lines put.
ghost use Rattle.std.specs.Prelude.{◌≡◌, ◌++◌, ◌≤◌, ◌+◌, T, length, drop};
ghost use Rattle.rdfs.specs.Numbers.{product};
ghost use Rattle.rdfs.specs.Facts.{lit, has};
ghost use Rattle.rdfs.specs.Words.{fact, is_fact};
ghost use Rattle.table.specs.Counted.{Full, facts_of};
ghost use Rattle.flags.specs.Flags.{Adds};
ghost use Rattle.terms.specs.Putting.{Room, Puts};
ghost use Rattle.triples.specs.Texts.{text_of};
ghost use Rattle.triples.specs.Writing.{literal_by, text_by, Telling};

use flags::IDS;
use table::{LITERAL, VALUE, Word, first_of, kind_of, place, second_of};
use triple_form::{has_line, line_length, put_line};

// Flags each literal among facts.
pub fn flag_literals(facts: &[Word], flags: &mut [bool; IDS])
    requires facts { Full facts.now }
    ensures flags { Adds flags.old flags.new
        (λ x. has (facts_of facts.now) (lit x)) }
{
    for word in facts {
        if kind_of(*word) == LITERAL {
            flags[place(first_of(*word))] = true;
        }
    }
}

// Whether the object of a fact's line is a literal.
fn has_literal(word: Word, literals: &[bool; IDS]) -> bool
    requires fact { T (is_fact product word) }
    ensures answer { result ≡ literal_by literals.now (fact product.base word) }
{
    kind_of(word) == VALUE && literals[place(second_of(word))]
}

// The length of a fact's line; 0 if it has none.
fn fact_length(word: Word, literals: &[bool; IDS]) -> usize
    requires fact { T (is_fact product word) }
    ensures answer { result ≡ length (text_by literals.now (fact product.base word)) }
{
    if has_line(word) {
        line_length(word, has_literal(word, literals))
    } else {
        0
    }
}

// Puts a fact's line, if it has one, and answers the place after it.
fn put_fact(output: &mut [u8], at: usize, word: Word, literals: &[bool; IDS]) -> usize
    requires fact { T (is_fact product word) }
    requires room { Room output.old at (text_by literals.now (fact product.base word)) }
    ensures bytes { Puts output.old at
        (text_by literals.now (fact product.base word)) output.new result }
{
    if has_line(word) {
        put_line(output, at, word, has_literal(word, literals))
    } else {
        at
    }
}

// The length of the text of facts.
pub fn text_length(facts: &[Word], literals: &[bool; IDS]) -> usize
    requires telling { Telling facts.now literals.now }
    ensures answer { result ≡ length (text_of (facts_of facts.now)) }
{
    let mut total = 0;
    for word in facts {
        total += fact_length(*word, literals);
    }
    total
}

// Puts the text of facts, from the first byte on.
pub fn put_text(facts: &[Word], literals: &[bool; IDS], output: &mut [u8])
    requires telling { Telling facts.now literals.now }
    requires room { length (text_of (facts_of facts.now)) ≤ length output.old }
    ensures bytes { output.new ≡ text_of (facts_of facts.now) ++ drop
        (length (text_of (facts_of facts.now))) output.old }
{
    let mut at = 0;
    for word in facts {
        at = put_fact(output, at, *word, literals);
    }
}
