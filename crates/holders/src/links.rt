// The values of each property joined by links, in one pass.
ghost use Rattle.std.specs.Prelude.{◌≡◌};
ghost use Rattle.table.specs.Counted.{Id};
ghost use Rattle.holders.specs.Links.{latest_at, Linkable, NoneLinked, Linked};

use spans::place_of;
use table::{MOST, VALUE, Word, place, third_of, word_of};

// The place of property z's link, after those of the words.
pub fn latest_at(z: Word) -> usize
    requires id { Id z }
    ensures answer { result ≡ latest_at z }
{
    MOST + place(z)
}

// Links each value to the one of its property before it, and each property to its last value. All links are 0
// at first. A link is a place and one, 0 none: an Option of a place would take twice the fixed memory.
pub fn link_values<'a>(table: &'a [Word], links: &mut [u16])
    requires places { Linkable table.now links.old }
    requires none { NoneLinked links.old }
    ensures links { Linked table.now links.new }
{
    let from = place_of(table, word_of(VALUE, 0, 0, 0));
    let end = place_of(table, word_of(VALUE + 1, 0, 0, 0));
    for at in from..end {
        let latest = latest_at(third_of(table[at]));
        links[at] = links[latest];
        links[latest] = at as u16 + 1;
    }
}
