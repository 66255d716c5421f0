// Lookups among the facts of a table: the first fact of a kind with an id, the roles of an id, links, the
// facts of a property.
ghost use Rattle.std.specs.Prelude.{◌≡◌, not, ◌&&◌, [], ◌∷◌, eqb};
ghost use Rattle.rdfs.specs.Lists.{all};
ghost use Rattle.rdfs.specs.Facts.{made, has};
ghost use Rattle.rdfs.specs.Demands.{with_a};
ghost use Rattle.rdfs.specs.Tickets.{asked, ticket_of};
ghost use Rattle.rdfs.specs.Lookups.{other_role, first_b, backwards, cycle_of_two};
ghost use Rattle.table.specs.Parts.{Shaped};
ghost use Rattle.table.specs.Counted.{Id, facts_of};
ghost use Rattle.exclusive.specs.Looked.{Looked};
ghost use Rattle.clash.specs.Looked.{LookedSpan, first_word};

use exclusive::is_under;
use table::{
    BASE, CLASS, DOMAIN, INDIVIDUAL, LITERAL, PROPERTY, RANGE, SUBCLASS, Word, count_below,
    has_fact, second_of, word_of,
};

// The word of the first fact of kind k with p as a, if there is one. These words are the next BASE × BASE
// from the least on.
pub fn first_with(facts: &[Word], k: Word, p: Word) -> Option<Word>
    requires facts { LookedSpan facts.now k p }
    ensures answer { result ≡ first_word (with_a (facts_of facts.now) k p) }
{
    let least = word_of(k, p, 0, 0);
    let place = count_below(facts, least);
    match facts.get(place) {
        Some(word) if *word - least < BASE * BASE => Some(*word),
        _ => None,
    }
}

// The b of that fact: the domain or the range of a property. It is 0 if there is none, as the definition
// `first_b` has it.
pub fn first_b(facts: &[Word], k: Word, p: Word) -> Word
    requires facts { LookedSpan facts.now k p }
    ensures answer { result ≡ first_b (with_a (facts_of facts.now) k p) }
    ensures bound { Id result }
{
    match first_with(facts, k, p) {
        Some(word) => second_of(word),
        None => 0,
    }
}

// x has role l, a kind other than k.
fn has_role_besides(facts: &[Word], k: Word, l: Word, x: Word) -> bool
    requires facts { Looked facts.now (x ∷ []) }
    requires kind { Shaped l 0 0 }
    ensures answer { result ≡ (not (eqb l k) && has (facts_of facts.now) (made l x 0 0)) }
{
    l != k && has_fact(facts, l, x, 0, 0)
}

// x is a class, property, individual or literal, and not by a fact of kind k.
pub fn has_other_role(facts: &[Word], k: Word, x: Word) -> bool
    requires facts { Looked facts.now (x ∷ []) }
    ensures answer { result ≡ other_role (facts_of facts.now) k x }
{
    has_role_besides(facts, k, CLASS, x)
        || has_role_besides(facts, k, PROPERTY, x)
        || has_role_besides(facts, k, INDIVIDUAL, x)
        || has_role_besides(facts, k, LITERAL, x)
}

// CSub(x,y) is wanted, and CSub(y,x) stands.
pub fn is_backwards(facts: &[Word], x: Word, y: Word) -> bool
    requires facts { Looked facts.now (x ∷ y ∷ []) }
    ensures answer { result ≡ backwards (facts_of facts.now) x y }
{
    x != y && has_fact(facts, SUBCLASS, y, x, 0)
}

// CSub(x,y) and CSub(z,w) are wanted, and would close a cycle together.
pub fn closes_cycle(facts: &[Word], x: Word, y: Word, z: Word, w: Word) -> bool
    requires facts { Looked facts.now (x ∷ y ∷ z ∷ w ∷ []) }
    ensures answer { result ≡ cycle_of_two (facts_of facts.now) x y z w }
{
    x != y && z != w && is_under(facts, SUBCLASS, z, y) && is_under(facts, SUBCLASS, x, w)
}

// Pr(a), Dom(a,b) and Rng(a,c) are all there.
pub fn has_property(facts: &[Word], a: Word, b: Word, c: Word) -> bool
    requires facts { Looked facts.now (a ∷ b ∷ c ∷ []) }
    ensures answer { result ≡ all (has (facts_of facts.now)) (asked (ticket_of 1 2 a b c)) }
{
    has_fact(facts, PROPERTY, a, 0, 0)
        && has_fact(facts, DOMAIN, a, b, 0)
        && has_fact(facts, RANGE, a, c, 0)
}
