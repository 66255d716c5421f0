// The fact whose line has three terms.
ghost use Rattle.std.specs.Prelude.{◌≡◌, MatchOption};
ghost use Rattle.rdfs.specs.Numbers.{product};
ghost use Rattle.terms.specs.Terms.{Proper};
ghost use Rattle.triple_form.specs.FactTerms.{id_in, is_literal};
ghost use Rattle.triple_form.specs.FactKinds.{typed_kind, linked_kind, value_kind, kind_by};
ghost use Rattle.triple_form.specs.LineRead.{FactOf, NoFact};

use table::{
    CLASS, DOMAIN, EXCLUSIVE, MEMBER, PROPERTY, RANGE, SUBCLASS, SUBPROPERTY, VALUE, Word, is_fact,
    word_of,
};
use terms::Term;

// The word of a fact, and whether the object of its line is a literal.
#[derive(Clone, Copy)]
pub struct Told {
    pub word: Word,
    pub literal: bool,
}

// The id of an IRI or of a literal.
fn id_in(term: Term) -> Option<Word>
    ensures answer { result ≡ id_in term }
{
    match term {
        Term::Id(n) | Term::Literal(n) => Some(n),
        _ => None,
    }
}

// Whether a term is a literal.
fn is_literal(term: Term) -> bool
    ensures answer { result ≡ is_literal term }
{
    matches!(term, Term::Literal(_))
}

// The kind of a line of rdf:type with an object.
fn typed_kind(object: Term) -> Option<Word>
    ensures answer { result ≡ typed_kind object }
{
    match object {
        Term::Class => Some(CLASS),
        Term::Property => Some(PROPERTY),
        Term::Id(_) => Some(MEMBER),
        Term::Exclusive => Some(EXCLUSIVE),
        _ => None,
    }
}

// The kind k if a term is the IRI of an id.
fn linked_kind(k: Word, term: Term) -> Option<Word>
    ensures answer { result ≡ linked_kind k term }
{
    match term {
        Term::Id(_) => Some(k),
        _ => None,
    }
}

// The kind of a line of a property with an object.
fn value_kind(object: Term) -> Option<Word>
    ensures answer { result ≡ value_kind object }
{
    match object {
        Term::Id(_) | Term::Literal(_) => Some(VALUE),
        _ => None,
    }
}

// The kind of a line with a predicate and an object.
fn kind_by(predicate: Term, object: Term) -> Option<Word>
    ensures answer { result ≡ kind_by predicate object }
{
    match predicate {
        Term::Id(_) => value_kind(object),
        Term::RdfType => typed_kind(object),
        Term::SubClassOf => linked_kind(SUBCLASS, object),
        Term::SubPropertyOf => linked_kind(SUBPROPERTY, object),
        Term::Domain => linked_kind(DOMAIN, object),
        Term::Range => linked_kind(RANGE, object),
        _ => None,
    }
}

// The fact whose line has three terms.
pub fn fact_of(subject: Term, predicate: Term, object: Term) -> Option<Told>
    requires subject { Proper product.top subject }
    requires predicate { Proper product.top predicate }
    requires object { Proper product.top object }
    ensures answer { MatchOption result (NoFact subject predicate object)
        (λ told. FactOf subject predicate object told.word told.literal) }
{
    let Term::Id(a) = subject else {
        return None;
    };
    let k = kind_by(predicate, object)?;
    let b = id_in(object).unwrap_or(0);
    let c = id_in(predicate).unwrap_or(0);
    let word = word_of(k, a, b, c);
    let literal = is_literal(object);
    if is_fact(word) {
        Some(Told { word, literal })
    } else {
        None
    }
}
