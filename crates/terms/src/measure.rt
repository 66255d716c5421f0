// How many bytes terms take.
ghost use Rattle.std.specs.Prelude.{◌≡◌, length};
ghost use Rattle.terms.specs.Terms.{decimal, id_term, spelling};

use crate::term::Term;
use table::{MARK, RESOURCE, Word};

// The length of a number in decimal.
// The loop divides and counts no index: a `for` would be no plainer.
fn decimal_length(n: Word) -> usize
    ensures answer { result ≡ length (decimal n) }
{
    let mut rest = n;
    let mut count = 1;
    while 10 <= rest {
        rest /= 10;
        count += 1;
    }
    count
}

// The length of the IRI of an id.
fn id_length(n: Word) -> usize
    ensures answer { result ≡ length (id_term n) }
{
    if n == RESOURCE {
        return 47;
    }
    if n == MARK {
        return 46;
    }
    9 + decimal_length(n)
}

// The length of a term; 0 where there is none.
pub fn term_length(term: Option<Term>) -> usize
    ensures answer { result ≡ length (spelling term) }
{
    let Some(term) = term else {
        return 0;
    };
    match term {
        Term::Id(n) => id_length(n),
        Term::Literal(n) => 2 + decimal_length(n),
        Term::RdfType => 49,
        Term::Property => 53,
        Term::Class => 44,
        Term::SubClassOf => 49,
        Term::SubPropertyOf => 52,
        Term::Domain => 45,
        Term::Range => 44,
        Term::Exclusive => 15,
    }
}
