// Terms read from the start of a text. Each function answers what it read and the text behind it, or none.
ghost use Rattle.std.specs.Prelude.{◌≡◌, false, ◌++◌, MatchOption};
ghost use Rattle.terms.specs.Terms.{bytes};
ghost use Rattle.terms.specs.TermRead.{is_digit, DigitRead, NoDigit, DigitsRead, NoDigits};
ghost use Rattle.terms.specs.TermRead.{NumberRead, NoNumber, TermRead, NoTerm, EndedRead, NotEnded};

use crate::term::Term;
use table::{MARK, RESOURCE, TOP, Word};

// The value of a decimal digit.
fn read_digit(text: &[u8]) -> Option<(Word, &[u8])>
    ensures answer { MatchOption result (NoDigit text.now)
        (λ read. DigitRead text.now read.0 read.1.now) }
{
    let (byte, rest) = text.split_first()?;
    if byte.is_ascii_digit() {
        Some(((*byte - b'0') as Word, rest))
    } else {
        None
    }
}

// The number whose digits stand at the start, the first of them not 0; none for a number above the highest id.
fn read_digits(text: &[u8]) -> Option<(Word, &[u8])>
    ensures answer { MatchOption result (NoDigits text.now)
        (λ read. DigitsRead text.now read.0 read.1.now) }
{
    let (first, behind) = read_digit(text)?;
    if first == 0 {
        return None;
    }
    let mut value = first;
    let mut rest = behind;
    while let Some((digit, next)) = read_digit(rest) {
        value = 10 * value + digit;
        rest = next;
        if TOP < value {
            return None;
        }
    }
    Some((value, rest))
}

// The number from 2 on whose digits stand at the start, with the byte `end` behind them.
fn read_number(text: &[u8], end: u8) -> Option<(Word, &[u8])>
    requires end { is_digit end ≡ false }
    ensures answer { MatchOption result (NoNumber text.now end)
        (λ read. NumberRead text.now end read.0 read.1.now) }
{
    let (value, behind) = read_digits(text)?;
    let (byte, rest) = behind.split_first()?;
    if 2 <= value && *byte == end {
        Some((value, rest))
    } else {
        None
    }
}

// The IRI of an id from 2 on, or the object of a line of Excl, of which `<urn:` is read.
fn urn_at(text: &[u8]) -> Option<(Term, &[u8])>
    ensures answer { MatchOption result (NoTerm (bytes "<urn:" ++ text.now))
        (λ read. TermRead (bytes "<urn:" ++ text.now) read.0 read.1.now) }
{
    if let Some(digits) = text.strip_prefix(b"id:") {
        let (n, rest) = read_number(digits, b'>')?;
        return Some((Term::Id(n), rest));
    }
    if let Some(rest) = text.strip_prefix(b"mark:excl>") {
        return Some((Term::Exclusive, rest));
    }
    None
}

// A term of RDF, by its local name with the closing `>`; the rest is read.
// With `rdfs_at` and `urn_at` it differs in which names it tries, and how many: one function over a list of
// names would be no plainer, as each name has its own term.
fn rdf_at(text: &[u8]) -> Option<(Term, &[u8])>
    ensures answer { MatchOption result (NoTerm (bytes "<http://www.w3.org/1999/02/22-rdf-syntax-ns#" ++ text.now))
        (λ read. TermRead (bytes "<http://www.w3.org/1999/02/22-rdf-syntax-ns#" ++ text.now) read.0 read.1.now) }
{
    if let Some(rest) = text.strip_prefix(b"type>") {
        return Some((Term::RdfType, rest));
    }
    if let Some(rest) = text.strip_prefix(b"Property>") {
        return Some((Term::Property, rest));
    }
    None
}

// A term of RDF Schema, by its local name with the closing `>`; the rest is read.
fn rdfs_at(text: &[u8]) -> Option<(Term, &[u8])>
    ensures answer { MatchOption result (NoTerm (bytes "<http://www.w3.org/2000/01/rdf-schema#" ++ text.now))
        (λ read. TermRead (bytes "<http://www.w3.org/2000/01/rdf-schema#" ++ text.now) read.0 read.1.now) }
{
    if let Some(rest) = text.strip_prefix(b"subClassOf>") {
        return Some((Term::SubClassOf, rest));
    }
    if let Some(rest) = text.strip_prefix(b"Resource>") {
        return Some((Term::Id(RESOURCE), rest));
    }
    if let Some(rest) = text.strip_prefix(b"Class>") {
        return Some((Term::Class, rest));
    }
    if let Some(rest) = text.strip_prefix(b"subPropertyOf>") {
        return Some((Term::SubPropertyOf, rest));
    }
    if let Some(rest) = text.strip_prefix(b"domain>") {
        return Some((Term::Domain, rest));
    }
    if let Some(rest) = text.strip_prefix(b"range>") {
        return Some((Term::Range, rest));
    }
    if let Some(rest) = text.strip_prefix(b"Literal>") {
        return Some((Term::Id(MARK), rest));
    }
    None
}

// The term that stands at the start.
fn read_term(text: &[u8]) -> Option<(Term, &[u8])>
    ensures answer { MatchOption result (NoTerm text.now)
        (λ read. TermRead text.now read.0 read.1.now) }
{
    if let Some(name) = text.strip_prefix(b"<urn:") {
        return urn_at(name);
    }
    if let Some(name) = text.strip_prefix(b"<http://www.w3.org/2000/01/rdf-schema#") {
        return rdfs_at(name);
    }
    if let Some(name) = text.strip_prefix(b"<http://www.w3.org/1999/02/22-rdf-syntax-ns#") {
        return rdf_at(name);
    }
    let digits = text.strip_prefix(b"\"")?;
    let (n, rest) = read_number(digits, b'"')?;
    Some((Term::Literal(n), rest))
}

// The term with a blank behind it that stands at the start.
pub fn read_ended(text: &[u8]) -> Option<(Term, &[u8])>
    ensures answer { MatchOption result (NotEnded text.now)
        (λ read. EndedRead text.now read.0 read.1.now) }
{
    let (term, behind) = read_term(text)?;
    let rest = behind.strip_prefix(b" ")?;
    Some((term, rest))
}
