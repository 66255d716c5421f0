// Room for a word among others, and a word stored at its place.
ghost use Rattle.std.specs.Prelude.{◌≡◌, ◌≤◌, ◌<◌, T, length};
ghost use Rattle.rdfs.specs.Numbers.{product};
ghost use Rattle.rdfs.specs.Words.{is_fact};
ghost use Rattle.table.specs.Room.{put_at};
ghost use Rattle.table.specs.Counted.{Counted};
ghost use Rattle.table.specs.Storing.{StoreMeans};

use crate::search::find;
use crate::words::Word;

// Three outcomes: a Result would be no plainer, as it would tell the first two apart by a bool.
#[derive(Clone, Copy)]
pub enum Stored {
    // The word stands in the table already.
    There,
    // It has been put in.
    Added,
    // It would be one word too many.
    NoRoom,
}

// Moves the words from `place` up to `count` one place up, and stores a word at `place`. Here and in `store`
// the number of facts stands beside the table, since a word is written behind them.
pub fn put_at(table: &mut [Word], count: usize, place: usize, word: Word)
    requires place { place ≤ count }
    requires room { count < length table.old }
    ensures words { table.new ≡ put_at table.old count place word }
{
    table.copy_within(place..count, place + 1);
    table[place] = word;
}

// Puts the word of a fact into a table with `count` facts, and nothing that follows.
pub fn store(table: &mut [Word], count: usize, word: Word) -> Stored
    requires counted { Counted table.old count }
    requires fact { T (is_fact product word) }
    ensures words { StoreMeans table.old word table.new result }
{
    match find(&table[..count], word) {
        Ok(_) => Stored::There,
        Err(place) => {
            if count < table.len() {
                put_at(table, count, place, word);
                Stored::Added
            } else {
                Stored::NoRoom
            }
        }
    }
}
