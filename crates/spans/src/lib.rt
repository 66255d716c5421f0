// The words of a table with an index of their spans: searches in spans, what single rules ask of the ids of a
// fact, and the rules that compare whole spans. A span is the words of one kind and one first id.
//
// All functions serve the check of a table, and write no word of it. Each requires words of facts that
// ascend; those that need the index too are methods of `Spans`, which has both. The tests of rules 22, 23,
// 25, H3 and H4 also require what an earlier rule shows, one domain or one range for each property. The crate
// assumes nothing.
//
// The index of spans takes 5,632 bytes of stack, two for each of 11 times 256 spans, and the stamps of a span
// 512. With ids up to 4,095 the index would take 90,112 and the stamps 8,192.
#![tactic(auto)]

ghost use Rattle.std.specs.Prelude.{◌≡◌, ◌≤◌, length};
ghost use Rattle.rdfs.specs.Numbers.{product};
ghost use Rattle.spans.specs.Spans.{Fillable, Indexed};

mod index;
mod merge;
mod present;
mod schema;
mod stamps;
mod typing;
mod values;

pub use index::{SPANS, fill_index, number_at};
pub use merge::{place_of, words_of_kind};
use table::Word;

// The words of a table, no more than a table has, with the index of their spans.
#[derive(Clone, Copy)]
pub struct Spans<'a> {
    pub table: &'a [Word],
    pub index: &'a [u16],
    pub ghost indexed: { Indexed table.now index.now },
}

impl<'a> Spans<'a> {
    // The words with the index, which is all 0 at first and is filled.
    pub fn new(table: &'a [Word], index: &'a mut [u16]) -> Spans<'a>
        requires words { Fillable table.now index.old }
        requires few { length table.now ≤ product.most }
        ensures words { result.table.now ≡ table.now }
    {
        fill_index(table, index);
        Spans { table, index }
    }
}
