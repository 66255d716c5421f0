// Spans carried over: rules 18, 20, 24 and 26, by stamps for the second ids of one span at a time.
ghost use Rattle.std.specs.Prelude.{◌≡◌, length};
ghost use Rattle.rdfs.specs.Rules.{Meets, r24};
ghost use Rattle.table.specs.Answers.{Decides};
ghost use Rattle.table.specs.Parts.{second_of, third_of};
ghost use Rattle.spans.specs.Spans.{IsSpan};
ghost use Rattle.spans.specs.Sought.{TwoIds};
ghost use Rattle.spans.specs.Graphs.{Each, graph_of, last_of, Carried, Carries};
ghost use Rattle.spans.specs.Stamps.{AllStamped, Stamped, AllLower, Stampable, StampedUpTo, Carriable};

use crate::Spans;
use crate::index::{number_at, span_at, span_of};
use crate::merge::words_of_kind;
use table::{DOMAIN, MEMBER, TOP, VALUE, Word, first_of, place, second_of, third_of};

const STAMPS: usize = TOP as usize + 1;

// A cast whose bound the contract proves: `TryFrom` would answer an error that cannot come.
fn stamp_of(span: usize) -> u16
    requires span { IsSpan span }
    ensures answer { result ≡ span }
{
    span as u16
}

// The last id of a fact's word of kind k.
fn last_of(k: Word, word: Word) -> Word
    ensures answer { result ≡ last_of k (second_of word) (third_of word) }
{
    if k == VALUE {
        return third_of(word);
    }
    second_of(word)
}

impl<'a> Spans<'a> {
    // Gives the second ids of the span its number. All stamps are below it at first.
    fn stamp_span(&self, stamps: &mut [u16], span: usize)
        requires span { Stampable stamps.old span }
        requires lower { AllLower stamps.old span }
        ensures stamps { Stamped self.now.table.now stamps.new span }
    {
        let words = self.from_span(span);
        for &word in words {
            if span_of(word) != span {
                return;
            }
            stamps[place(second_of(word))] = stamp_of(span);
        }
    }

    // The same, if the stamps are those of a span that does not come after this one.
    fn stamp_next(&self, stamps: &mut [u16], last: usize, span: usize)
        requires span { Stampable stamps.old span }
        requires last { StampedUpTo self.now.table.now stamps.old last span }
        ensures stamps { Stamped self.now.table.now stamps.new span }
    {
        if last != span {
            self.stamp_span(stamps, span);
        }
    }

    // Whether each second id of the span has the stamp.
    fn is_stamped(&self, stamps: &[u16], stamp: usize, span: usize) -> bool
        requires span { Stampable stamps.now span }
        ensures answer { Decides result (AllStamped self.now.table.now stamps.now stamp span) }
    {
        let words = self.from_span(span);
        for &word in words {
            if span_of(word) != span {
                return true;
            }
            if number_at(stamps, place(second_of(word))) != stamp {
                return false;
            }
        }
        true
    }

    // Whether the first id of each fact of kind k has by kind m what its last id has by kind l. The second
    // ids that the first id has are stamped once for all its facts.
    fn carries_over(&self, k: Word, m: Word, l: Word) -> bool
        requires kinds { Carriable k m l }
        ensures answer { Decides result (Each self.now.table.now k (Carried self.now.table.now k m l)) }
    {
        let words = words_of_kind(self.table, k);
        let mut stamps = [0u16; STAMPS];
        let mut last = 0;
        for &word in words {
            let span = span_at(m, first_of(word));
            self.stamp_next(&mut stamps, last, span);
            if !self.is_stamped(&stamps, span, span_at(l, last_of(k, word))) {
                return false;
            }
            last = span;
        }
        true
    }

    // Rules 18, 20 and 26: x has by kind k what y has by kind l, for each fact (x,y) of kind k. One line over
    // the pass, as `all_subjects` is: the two promise different rules.
    pub fn all_carried(&self, k: Word, l: Word) -> bool
        requires kinds { TwoIds k × TwoIds l }
        ensures answer { Decides result (Carries self.now.table.now k l) }
    {
        self.carries_over(k, k, l)
    }

    // Rule 24: the subject of each value is in the domains of its property.
    pub fn all_subjects(&self) -> bool
        ensures answer { Decides result (Meets (graph_of self.now.table.now) r24) }
    {
        self.carries_over(VALUE, MEMBER, DOMAIN)
    }
}
