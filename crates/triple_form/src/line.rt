// The line of a fact, by the fact's word: its terms, its length, and its bytes put into lent ones; a line
// read from a text.
ghost use Rattle.std.specs.Prelude.{◌≡◌, cond, T, length, MatchOption, Some};
ghost use Rattle.rdfs.specs.Numbers.{product};
ghost use Rattle.rdfs.specs.Words.{fact, is_fact};
ghost use Rattle.triple_form.specs.Lines.{has_line, subject, predicate, object, line_of};
ghost use Rattle.terms.specs.Putting.{Room, Puts};
ghost use Rattle.triple_form.specs.LineRead.{word_line, LineRead, NoLine};
ghost use Rattle.terms.specs.declared.term.Term.TheVariants.{Id, Literal};

use crate::fact::{Told, fact_of};
use table::{
    CLASS, DOMAIN, EXCLUSIVE, INDIVIDUAL, LITERAL, PROPERTY, RANGE, SUBCLASS, SUBPROPERTY, VALUE,
    Word, first_of, kind_of, second_of, third_of,
};
use terms::{Term, put_ended, put_piece, read_ended, term_length};

// No line inside the profile has more bytes.
pub const LONGEST_LINE: usize = 154;

// Whether a fact has a line: Ind and Lit have none.
pub fn has_line(word: Word) -> bool
    requires fact { T (is_fact product word) }
    ensures answer { result ≡ has_line (fact product.base word) }
{
    let k = kind_of(word);
    k != INDIVIDUAL && k != LITERAL
}

// The predicate of a fact's line: rdf:type for Cl, Pr, CI and Excl.
fn predicate_of(word: Word) -> Term
    requires fact { T (is_fact product word) }
    requires line { T (has_line (fact product.base word)) }
    ensures answer { Some result ≡ predicate (fact product.base word) }
{
    let k = kind_of(word);
    match k {
        SUBCLASS => Term::SubClassOf,
        SUBPROPERTY => Term::SubPropertyOf,
        DOMAIN => Term::Domain,
        RANGE => Term::Range,
        VALUE => Term::Id(third_of(word)),
        _ => Term::RdfType,
    }
}

// The object of a fact's line.
fn object_of(word: Word, literal: bool) -> Term
    requires fact { T (is_fact product word) }
    requires line { T (has_line (fact product.base word)) }
    ensures answer { Some result ≡ object literal (fact product.base word) }
{
    let k = kind_of(word);
    let b = second_of(word);
    match k {
        CLASS => Term::Class,
        PROPERTY => Term::Property,
        VALUE => value_term(b, literal),
        EXCLUSIVE => Term::Exclusive,
        _ => Term::Id(b),
    }
}

// A value as a literal, or as the IRI of an id.
fn value_term(b: Word, literal: bool) -> Term
    ensures answer { result ≡ cond literal (Literal b) (Id b) }
{
    if literal {
        Term::Literal(b)
    } else {
        Term::Id(b)
    }
}

// The length of a fact's line.
pub fn line_length(word: Word, literal: bool) -> usize
    requires fact { T (is_fact product word) }
    requires line { T (has_line (fact product.base word)) }
    ensures answer { result ≡ length (line_of (word_line word literal)) }
{
    let subject = term_length(Some(Term::Id(first_of(word))));
    let predicate = term_length(Some(predicate_of(word)));
    let object = term_length(Some(object_of(word, literal)));
    subject + predicate + object + 5
}

// Puts a fact's line, and answers the place after it.
pub fn put_line(output: &mut [u8], at: usize, word: Word, literal: bool) -> usize
    requires fact { T (is_fact product word) }
    requires line { T (has_line (fact product.base word)) }
    requires room { Room output.old at (line_of (word_line word literal)) }
    ensures bytes { Puts output.old at (line_of (word_line word literal))
        output.new result }
{
    let second = put_ended(output, at, Some(Term::Id(first_of(word))));
    let third = put_ended(output, second, Some(predicate_of(word)));
    let last = put_ended(output, third, Some(object_of(word, literal)));
    put_piece(output, last, b".\n")
}

// The line inside the profile that stands at the start of a text, and the text behind it.
pub fn read_line(text: &[u8]) -> Option<(Told, &[u8])>
    ensures answer { MatchOption result (NoLine text.now)
        (λ read. LineRead text.now read.0.word read.0.literal read.1.now) }
{
    let (subject, second) = read_ended(text)?;
    let (predicate, third) = read_ended(second)?;
    let (object, last) = read_ended(third)?;
    let rest = last.strip_prefix(b".\n")?;
    let told = fact_of(subject, predicate, object)?;
    Some((told, rest))
}
