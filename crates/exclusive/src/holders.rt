// Who holds which value, and whether another does through a flagged property.
ghost use Rattle.std.specs.Prelude.{◌≡◌, ◌<◌, Some, length};
ghost use Rattle.rdfs.specs.Numbers.{product};
ghost use Rattle.table.specs.Answers.{Decides};
ghost use Rattle.table.specs.Counted.{Full, Id, facts_of};
ghost use Rattle.flags.specs.Flags.{Whole};
ghost use Rattle.exclusive.specs.Holders.{Other, Unheld, Filled, HeldOtherwise};

use crate::above::words_of;
use table::{VALUE, Word, first_of, place, second_of, third_of};

// The individual that holds a value, if one does: 4 bytes, with room for ids up to 65,535.
pub type Holder = Option<u16>;

// x as a holder: a cast that loses nothing of an id.
pub fn holder_of(x: Word) -> Holder
    requires id { Id x }
    ensures answer { result ≡ Some x }
{
    Some(x as u16)
}

// The holder is somebody, and not x.
fn is_other(holder: Holder, x: Word) -> bool
    ensures answer { Decides result (Other holder x) }
{
    match holder {
        Some(held) => Word::from(held) != x,
        None => false,
    }
}

// Notes who holds the values of p; answers whether one of them has two holders.
pub fn fill_holders<'a>(facts: &'a [Word], p: Word, holders: &mut [Holder]) -> bool
    requires facts { Full facts.now }
    requires holders { Unheld holders.old }
    ensures answer { Filled result (facts_of facts.now) p holders.new }
{
    for word in words_of(facts, VALUE) {
        if third_of(*word) == p {
            let x = first_of(*word);
            let y = place(second_of(*word));
            if is_other(holders[y], x) {
                return true;
            }
            holders[y] = holder_of(x);
        }
    }
    false
}

// A value through a flagged property has another holder than the one that is noted.
pub fn is_held<'a>(facts: &'a [Word], flags: &'a [bool], holders: &'a [Holder]) -> bool
    requires facts { Full facts.now }
    requires ids { Whole flags.now × (product.top < length holders.now) }
    ensures answer { Decides result (HeldOtherwise (facts_of facts.now) flags.now
        holders.now) }
{
    for word in words_of(facts, VALUE) {
        if flags[place(third_of(*word))] {
            let holder = holders[place(second_of(*word))];
            if is_other(holder, first_of(*word)) {
                return true;
            }
        }
    }
    false
}
