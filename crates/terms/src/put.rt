// Terms put into lent bytes. Each function answers the place after what it put.
ghost use Rattle.std.specs.Prelude.{◌++◌};
ghost use Rattle.terms.specs.Terms.{decimal, id_term, spelt};
ghost use Rattle.terms.specs.Terms.{ended, spelling};
ghost use Rattle.terms.specs.Putting.{Room, Puts};

use crate::term::Term;
use table::{MARK, RESOURCE, Word};

// What stands in front of the local names of RDF and of RDF Schema.
const RDF: &[u8] = b"<http://www.w3.org/1999/02/22-rdf-syntax-ns#";

const RDFS: &[u8] = b"<http://www.w3.org/2000/01/rdf-schema#";

// Puts a piece of text.
// All that put take the output and a place in it, as `Puts` and `Room` say where bytes stand.
pub fn put_piece(output: &mut [u8], at: usize, piece: &[u8]) -> usize
    requires room { Room output.old at piece.now }
    ensures bytes { Puts output.old at piece.now output.new result }
{
    let next = at + piece.len();
    output[at..next].copy_from_slice(piece);
    next
}

// Puts a number in decimal.
pub fn put_decimal(output: &mut [u8], at: usize, n: Word) -> usize
    requires room { Room output.old at (decimal n) }
    ensures bytes { Puts output.old at (decimal n) output.new result }
{
    if n < 10 {
        output[at] = 48 + n as u8;
        return at + 1;
    }
    let last = put_decimal(output, at, n / 10);
    output[last] = 48 + (n % 10) as u8;
    last + 1
}

// Puts an IRI, by what stands in front of its local name and the local name with the closing `>`.
fn put_named(output: &mut [u8], at: usize, front: &[u8], name: &[u8]) -> usize
    requires room { Room output.old at (front.now ++ name.now) }
    ensures bytes { Puts output.old at (front.now ++ name.now) output.new result }
{
    let next = put_piece(output, at, front);
    put_piece(output, next, name)
}

// Puts a number in decimal between two pieces of text.
fn put_number(output: &mut [u8], at: usize, before: &[u8], n: Word, after: &[u8]) -> usize
    requires room { Room output.old at (before.now ++ (decimal n ++ after.now)) }
    ensures bytes { Puts output.old at
        (before.now ++ (decimal n ++ after.now)) output.new result }
{
    let digits = put_piece(output, at, before);
    let last = put_decimal(output, digits, n);
    put_piece(output, last, after)
}

// Puts the IRI of an id.
fn put_id(output: &mut [u8], at: usize, n: Word) -> usize
    requires room { Room output.old at (id_term n) }
    ensures bytes { Puts output.old at (id_term n) output.new result }
{
    if n == RESOURCE {
        return put_named(output, at, RDFS, b"Resource>");
    }
    if n == MARK {
        return put_named(output, at, RDFS, b"Literal>");
    }
    put_number(output, at, b"<urn:id:", n, b">")
}

// Puts a term.
fn put_term(output: &mut [u8], at: usize, term: Term) -> usize
    requires room { Room output.old at (spelt term) }
    ensures bytes { Puts output.old at (spelt term) output.new result }
{
    match term {
        Term::Id(n) => put_id(output, at, n),
        Term::Literal(n) => put_number(output, at, b"\"", n, b"\""),
        Term::RdfType => put_named(output, at, RDF, b"type>"),
        Term::Property => put_named(output, at, RDF, b"Property>"),
        Term::Class => put_named(output, at, RDFS, b"Class>"),
        Term::SubClassOf => put_named(output, at, RDFS, b"subClassOf>"),
        Term::SubPropertyOf => put_named(output, at, RDFS, b"subPropertyOf>"),
        Term::Domain => put_named(output, at, RDFS, b"domain>"),
        Term::Range => put_named(output, at, RDFS, b"range>"),
        Term::Exclusive => put_piece(output, at, b"<urn:mark:excl>"),
    }
}

// Puts a term and a blank; where there is no term, the blank alone.
pub fn put_ended(output: &mut [u8], at: usize, term: Option<Term>) -> usize
    requires room { Room output.old at (ended (spelling term)) }
    ensures bytes { Puts output.old at (ended (spelling term)) output.new result }
{
    let Some(term) = term else {
        return put_piece(output, at, b" ");
    };
    let last = put_term(output, at, term);
    put_piece(output, last, b" ")
}
