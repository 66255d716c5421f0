// The clash of an insertion. Each function is one definition of the clash by lookups, and makes its tests in
// the definition's order.
ghost use Rattle.std.specs.Prelude.{◌≡◌, not, ◌&&◌, ◌||◌, [], ◌∷◌, eqb};
ghost use Rattle.rdfs.specs.Clashes.{mixed};
ghost use Rattle.rdfs.specs.Tickets.{ticket_of};
ghost use Rattle.rdfs.specs.Lookups.{
  other_role,
  property_clash,
  class_link_clash,
  property_link_clash,
  value_clash,
  lookup_clash,
  ends_clash,
  new_property_clash,
  no_link,
  no_value,
};
ghost use Rattle.table.specs.Counted.{facts_of};
ghost use Rattle.exclusive.specs.Looked.{Looked};

use crate::lookups::{closes_cycle, first_b, has_other_role, has_property, is_backwards};
use exclusive::{has_two_holders, is_taken, shares_values};
use table::{
    CLASS, DOMAIN, EXCLUSIVE, INDIVIDUAL, LITERAL, MARK, MEMBER, PROPERTY, RANGE, RESOURCE,
    SUBCLASS, SUBPROPERTY, VALUE, Word, has_fact,
};

// No kind: every role is another one. A number and no Option, as the definition `other_role` takes it.
const NO_KIND: Word = 0;

// Exactly one of two ranges is the mark.
fn is_mixed(z: Word, w: Word) -> bool
    ensures answer { result ≡ mixed z w }
{
    (z == MARK) != (w == MARK)
}

// A property with domain x and range z cannot be put under one with domain y and range w: H4, or 19 by what
// 22 and 23 need.
fn ends_clash(facts: &[Word], x: Word, y: Word, z: Word, w: Word) -> bool
    requires facts { Looked facts.now (x ∷ y ∷ z ∷ w ∷ []) }
    ensures answer { result ≡ ends_clash (facts_of facts.now) x y z w }
{
    is_mixed(z, w)
        || is_backwards(facts, x, y)
        || is_backwards(facts, z, w)
        || closes_cycle(facts, x, y, z, w)
}

// c cannot be the range of a new property: it is not the mark, and has a role other than class.
fn is_no_range(facts: &[Word], c: Word) -> bool
    requires facts { Looked facts.now (c ∷ []) }
    ensures answer { result ≡ (not (eqb c 1) && other_role (facts_of facts.now) 1 c) }
{
    c != MARK && has_other_role(facts, CLASS, c)
}

// Property a would be its own domain b or range c.
fn is_own_end(a: Word, b: Word, c: Word) -> bool
    ensures answer { result ≡ (eqb a b || eqb a c) }
{
    a == b || a == c
}

// Pr(a) with domain b and range c clashes, where these are not all there.
fn new_property_clashes(facts: &[Word], a: Word, b: Word, c: Word) -> bool
    requires facts { Looked facts.now (a ∷ b ∷ c ∷ []) }
    ensures answer { result ≡ new_property_clash (facts_of facts.now) a b c }
{
    has_other_role(facts, NO_KIND, a)
        || has_other_role(facts, CLASS, b)
        || is_no_range(facts, c)
        || is_own_end(a, b, c)
}

// Pr(a) with domain b and range c clashes.
fn property_clashes(facts: &[Word], a: Word, b: Word, c: Word) -> bool
    requires facts { Looked facts.now (a ∷ b ∷ c ∷ []) }
    ensures answer { result ≡ property_clash (facts_of facts.now) (ticket_of 1 2 a b c) }
{
    !has_property(facts, a, b, c) && new_property_clashes(facts, a, b, c)
}

// Class a cannot be put under class b: 19, for Resource with 13.
fn is_no_link(facts: &[Word], a: Word, b: Word) -> bool
    requires facts { Looked facts.now (a ∷ b ∷ []) }
    ensures answer { result ≡ no_link (facts_of facts.now) a b }
{
    a == b || a == RESOURCE || has_fact(facts, SUBCLASS, b, a, 0)
}

// CSub(a,b) clashes.
fn class_link_clashes(facts: &[Word], a: Word, b: Word) -> bool
    requires facts { Looked facts.now (a ∷ b ∷ []) }
    ensures answer { result ≡ class_link_clash (facts_of facts.now) a b }
{
    has_other_role(facts, CLASS, a) || has_other_role(facts, CLASS, b) || is_no_link(facts, a, b)
}

// PSub(a,b) clashes: a cycle, the mark against a class, class links that its domains and ranges need by 22
// and 23, or a value that would have two holders through an exclusive property, E2.
fn property_link_clashes(facts: &[Word], a: Word, b: Word) -> bool
    requires facts { Looked facts.now (a ∷ b ∷ []) }
    ensures answer { result ≡ property_link_clash (facts_of facts.now) a b }
{
    if a == b || has_fact(facts, SUBPROPERTY, b, a, 0) {
        return true;
    }
    let x = first_b(facts, DOMAIN, a);
    let y = first_b(facts, DOMAIN, b);
    let z = first_b(facts, RANGE, a);
    let w = first_b(facts, RANGE, b);
    ends_clash(facts, x, y, z, w) || shares_values(facts, a, b)
}

// b cannot be the value of a for property c: with the mark as range it is to be a literal, else an
// individual.
fn is_no_value(facts: &[Word], a: Word, b: Word, c: Word) -> bool
    requires facts { Looked facts.now (b ∷ c ∷ []) }
    ensures answer { result ≡ no_value (facts_of facts.now) a b c }
{
    if has_fact(facts, RANGE, c, MARK, 0) {
        has_other_role(facts, LITERAL, b) || a == b
    } else {
        has_other_role(facts, INDIVIDUAL, b)
    }
}

// PI(a,b,c) clashes: by the roles of a and b, or by E2.
fn value_clashes(facts: &[Word], a: Word, b: Word, c: Word) -> bool
    requires facts { Looked facts.now (a ∷ b ∷ c ∷ []) }
    ensures answer { result ≡ value_clash (facts_of facts.now) a b c }
{
    has_other_role(facts, INDIVIDUAL, a) || is_no_value(facts, a, b, c) || is_taken(facts, a, b, c)
}

// The clash by lookups of an insertion of kind k: on a consistent table, past refusals 9 and 16, it is
// refusal 10, that no consistent graph holds the table and the asked facts. A class, an individual or a
// literal clashes if it has another role, and so does a member, whose class is known to stand.
pub fn clashes(facts: &[Word], k: Word, a: Word, b: Word, c: Word) -> bool
    requires facts { Looked facts.now (a ∷ b ∷ c ∷ []) }
    ensures answer { result ≡ lookup_clash (facts_of facts.now) (ticket_of 1 k a b c) }
{
    match k {
        PROPERTY => property_clashes(facts, a, b, c),
        SUBCLASS => class_link_clashes(facts, a, b),
        SUBPROPERTY => property_link_clashes(facts, a, b),
        MEMBER => has_other_role(facts, INDIVIDUAL, a),
        VALUE => value_clashes(facts, a, b, c),
        EXCLUSIVE => has_two_holders(facts, a),
        _ => has_other_role(facts, k, a),
    }
}
