// Exclusive properties: whether an insertion would give a value through one of them two holders, decided in
// one or two passes over the values of a table.
//
// The functions serve the crates above. Each requires the facts of a table without its zeros, and ids up to
// the highest. Nothing is written. The crate assumes nothing.
#![tactic(auto)]

ghost use Rattle.std.specs.Prelude.{◌≡◌, [], ◌∷◌};
ghost use Rattle.rdfs.specs.Clashes.{two_holders};
ghost use Rattle.rdfs.specs.Lookups.{value_taken, values_shared};
ghost use Rattle.table.specs.Counted.{facts_of};
ghost use Rattle.exclusive.specs.Looked.{Looked};

use above::{flag_exclusive, has_exclusive};
use flags::IDS;
use holders::{fill_holders, holder_of, is_held};
use table::{Word, place};

mod above;
mod holders;

pub use above::is_under;

// Another individual than a has the value b through an exclusive property at c or over it: PI(a,b,c) clashes.
pub fn is_taken(facts: &[Word], a: Word, b: Word, c: Word) -> bool
    requires facts { Looked facts.now (a ∷ b ∷ c ∷ []) }
    ensures answer { result ≡ value_taken (facts_of facts.now) a b c }
{
    if !has_exclusive(facts) {
        return false;
    }
    let mut flags = [false; IDS];
    let above = flag_exclusive(facts, c, &mut flags);
    if !above {
        return false;
    }
    let mut holders = [None; IDS];
    holders[place(b)] = holder_of(a);
    is_held(facts, &flags, &holders)
}

// There is an exclusive property at b or over it, and a value of a has two holders, or one of a and another
// of such a property: PSub(a,b) clashes.
// It begins as `is_taken` does, and asks something else by a definition of its own: two functions.
pub fn shares_values(facts: &[Word], a: Word, b: Word) -> bool
    requires facts { Looked facts.now (a ∷ b ∷ []) }
    ensures answer { result ≡ values_shared (facts_of facts.now) a b }
{
    if !has_exclusive(facts) {
        return false;
    }
    let mut flags = [false; IDS];
    let above = flag_exclusive(facts, b, &mut flags);
    if !above {
        return false;
    }
    let mut holders = [None; IDS];
    let two = fill_holders(facts, a, &mut holders);
    two || is_held(facts, &flags, &holders)
}

// A value of a has two holders: Excl(a) clashes.
pub fn has_two_holders(facts: &[Word], a: Word) -> bool
    requires facts { Looked facts.now (a ∷ []) }
    ensures answer { result ≡ two_holders (facts_of facts.now) a }
{
    let mut holders = [None; IDS];
    fill_holders(facts, a, &mut holders)
}
