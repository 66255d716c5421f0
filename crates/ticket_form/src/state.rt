// What an insertion finds in a table: refusals 9 and 16, and whether its asked facts are all there.
ghost use Rattle.std.specs.Prelude.{◌≡◌, not, ◌||◌};
ghost use Rattle.rdfs.specs.Lists.{all};
ghost use Rattle.rdfs.specs.Facts.{pr, has};
ghost use Rattle.rdfs.specs.Tickets.{asked, unknown_property, unknown_class, ticket_of};
ghost use Rattle.table.specs.Counted.{Full, Id, facts_of};
ghost use Rattle.ticket_form.specs.TicketForm.{Asked};

use clash::has_property;
use table::{CLASS, EXCLUSIVE, MEMBER, PROPERTY, SUBPROPERTY, VALUE, Word, has_fact};

// x is no property of the table.
fn lacks_property(facts: &[Word], x: Word) -> bool
    requires facts { Full facts.now }
    requires id { Id x }
    ensures answer { result ≡ not (has (facts_of facts.now) (pr x)) }
{
    !has_fact(facts, PROPERTY, x, 0, 0)
}

// x or y is no property of the table.
fn lacks_either(facts: &[Word], x: Word, y: Word) -> bool
    requires facts { Full facts.now }
    requires ids { Id x × Id y }
    ensures answer { result ≡ (not (has (facts_of facts.now) (pr x))
        || not (has (facts_of facts.now) (pr y))) }
{
    lacks_property(facts, x) || lacks_property(facts, y)
}

// Refusal 9: an insertion of PSub with a or b not a property of the table, of PI with c not one, or of Excl
// with a not one.
pub fn is_unknown_property(facts: &[Word], k: Word, a: Word, b: Word, c: Word) -> bool
    requires asked { Asked facts.now 1 k a b c }
    ensures answer { result ≡ unknown_property (facts_of facts.now) (ticket_of 1 k a b c) }
{
    match k {
        SUBPROPERTY => lacks_either(facts, a, b),
        VALUE => lacks_property(facts, c),
        EXCLUSIVE => lacks_property(facts, a),
        _ => false,
    }
}

// Refusal 16: an insertion of CI with b not a class of the table.
pub fn is_unknown_class(facts: &[Word], k: Word, a: Word, b: Word, c: Word) -> bool
    requires asked { Asked facts.now 1 k a b c }
    ensures answer { result ≡ unknown_class (facts_of facts.now) (ticket_of 1 k a b c) }
{
    k == MEMBER && !has_fact(facts, CLASS, b, 0, 0)
}

// The asked facts of an insertion are all there.
pub fn has_asked(facts: &[Word], k: Word, a: Word, b: Word, c: Word) -> bool
    requires asked { Asked facts.now 1 k a b c }
    ensures answer { result ≡ all (has (facts_of facts.now)) (asked (ticket_of 1 k a b c)) }
{
    if k == PROPERTY {
        has_property(facts, a, b, c)
    } else {
        has_fact(facts, k, a, b, c)
    }
}
