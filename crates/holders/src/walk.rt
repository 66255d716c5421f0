// The values of each exclusive property, gone through by their links.
ghost use Rattle.std.specs.Prelude.{◌≡◌, length};
ghost use Rattle.table.specs.Answers.{Decides};
ghost use Rattle.table.specs.Parts.{second_of};
ghost use Rattle.table.specs.Counted.{Id};
ghost use Rattle.spans.specs.Spans.{id_count};
ghost use Rattle.holders.specs.Values.{HeldOnce, AllHeldOnce};
ghost use Rattle.holders.specs.Links.{Linked};
ghost use Rattle.holders.specs.Seen.{stamp_of, StampedUpTo, Walkable};

use crate::links::latest_at;
use spans::{number_at, words_of_kind};
use table::{EXCLUSIVE, Word, first_of, place, second_of};

// A cast whose bound the contract proves: `TryFrom` would answer an error that cannot come.
fn stamp_of(z: Word) -> u16
    requires id { Id z }
    ensures answer { result ≡ stamp_of z }
{
    (z + 1) as u16
}

fn value_of(word: Word) -> usize
    ensures answer { result ≡ second_of word }
{
    place(second_of(word))
}

// Whether each value of property z has one holder: no value is stamped twice.
fn is_held_once<'a>(table: &'a [Word], links: &'a [u16], seen: &mut [u16], z: Word) -> bool
    requires links { Walkable table.now links.now seen.old z }
    ensures answer { Decides result (HeldOnce table.now z) }
    ensures stamps { StampedUpTo seen.new (stamp_of z) }
{
    let stamp = stamp_of(z);
    // Follows links; no index is counted.
    let mut link = number_at(links, latest_at(z));
    while 0 < link {
        let y = value_of(table[link - 1]);
        if seen[y] == stamp {
            return false;
        }
        seen[y] = stamp;
        link = number_at(links, link - 1);
    }
    true
}

// Whether each value of each exclusive property has one holder. All stamps are 0 at first, and properties
// ascend.
pub fn each_held_once<'a>(table: &'a [Word], links: &'a [u16], seen: &mut [u16]) -> bool
    requires links { Linked table.now links.now }
    requires ids { length seen.old ≡ id_count }
    requires zeros { StampedUpTo seen.old 0 }
    ensures answer { Decides result (AllHeldOnce table.now) }
{
    let properties = words_of_kind(table, EXCLUSIVE);
    for &property in properties {
        if !is_held_once(table, links, seen, first_of(property)) {
            return false;
        }
    }
    true
}
