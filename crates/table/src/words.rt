// The word of a fact: its numbers, taking it apart, making one, which words are facts.
ghost use Rattle.std.specs.Prelude.{◌≡◌, cond, ltb};
ghost use Rattle.rdfs.specs.Numbers.{product, arity};
ghost use Rattle.rdfs.specs.Words.{is_fact};
ghost use Rattle.table.specs.Answers.{Decides};
ghost use Rattle.table.specs.Parts.{
  kind_of,
  first_of,
  second_of,
  third_of,
  word_of,
  kind_numbers,
  Digits,
  Shaped,
  Allowed,
};

pub type Word = u32;

// The highest id.
pub const TOP: Word = 255;
// The base at which a word's kind and ids are digits.
pub const BASE: Word = 256;
// The most words of a table.
pub const MOST: usize = 2048;
// How many words of 32 bits there are.
const WORDS: usize = 4294967296;

// The id of rdfs:Resource.
pub const RESOURCE: Word = 0;

// The mark Literal.
pub const MARK: Word = 1;

// The kinds: Cl, Pr, Ind, Lit, CSub, PSub, Dom, Rng, CI, PI, Excl. They are numbers, as an enum would be no
// plainer: a kind is a digit of a word, which may be no kind, and the words of kind k end at those of k + 1.
pub const CLASS: Word = 1;

pub const PROPERTY: Word = 2;

pub const INDIVIDUAL: Word = 3;

pub const LITERAL: Word = 4;

pub const SUBCLASS: Word = 5;

pub const SUBPROPERTY: Word = 6;

pub const DOMAIN: Word = 7;

pub const RANGE: Word = 8;

pub const MEMBER: Word = 9;

pub const VALUE: Word = 10;

pub const EXCLUSIVE: Word = 11;

// How many kinds there are.
pub const KINDS: Word = 11;

// The numbers that the definitions take as parameters.
#[derive(Clone, Copy)]
pub struct Limits {
    pub top: Word,
    pub base: Word,
    pub most: usize,
}

// The constants are the definitions' numbers.
pub fn numbers() -> Limits
    ensures answer { record { top = result.top; base = result.base; most = result.most } ≡ product }
{
    Limits {
        top: TOP,
        base: BASE,
        most: MOST,
    }
}

// The constants of the kinds are the definitions' numbers.
pub fn kind_numbers() -> [Word; KINDS as usize]
    ensures answer { result ≡ kind_numbers }
{
    [
        CLASS,
        PROPERTY,
        INDIVIDUAL,
        LITERAL,
        SUBCLASS,
        SUBPROPERTY,
        DOMAIN,
        RANGE,
        MEMBER,
        VALUE,
        EXCLUSIVE,
    ]
}

// An id as a place: a cast that loses nothing.
pub fn place(a: Word) -> usize
    ensures answer { result ≡ a }
{
    a as usize
}

// 1 if a word is below another, else 0: for words of 32 bits. There is no branch, as which way a search turns
// cannot be predicted; `(word < other) as usize` would be compiled to one.
pub fn is_below(word: Word, other: Word) -> usize
    ensures answer { result ≡ cond (ltb word other) 1 0 }
{
    1 - (word as usize + WORDS - other as usize) / WORDS
}

// How many ids a fact of kind k has; 0 if k is no kind.
pub fn arity_of(k: Word) -> Word
    ensures answer { result ≡ arity k }
{
    match k {
        CLASS | PROPERTY | INDIVIDUAL | LITERAL | EXCLUSIVE => 1,
        SUBCLASS | SUBPROPERTY | DOMAIN | RANGE | MEMBER => 2,
        VALUE => 3,
        _ => 0,
    }
}

// The kind of a word, whatever the word is.
pub fn kind_of(word: Word) -> Word
    ensures answer { result ≡ kind_of word }
{
    word / BASE / BASE / BASE
}

// Its id a. The three ids have a function each: one with the place as a const parameter would be no plainer.
pub fn first_of(word: Word) -> Word
    ensures answer { result ≡ first_of word }
{
    word / BASE / BASE % BASE
}

// Its id b.
pub fn second_of(word: Word) -> Word
    ensures answer { result ≡ second_of word }
{
    word / BASE % BASE
}

// Its id c.
pub fn third_of(word: Word) -> Word
    ensures answer { result ≡ third_of word }
{
    word % BASE
}

// The word of a kind and ids, with 0 for each id that the kind does not use.
pub fn word_of(k: Word, a: Word, b: Word, c: Word) -> Word
    requires digits { Digits k a b c }
    ensures answer { result ≡ word_of k a b c }
{
    ((k * BASE + a) * BASE + b) * BASE + c
}

// Whether k is a kind and the ids that it does not use are 0.
fn is_shaped(k: Word, b: Word, c: Word) -> bool
    ensures answer { Decides result (Shaped k b c) }
{
    match arity_of(k) {
        0 => false,
        1 => b == 0 && c == 0,
        2 => c == 0,
        _ => true,
    }
}

// Whether the ids are at most the highest, with the mark only as b of Rng.
fn is_allowed(k: Word, a: Word, b: Word, c: Word) -> bool
    ensures answer { Decides result (Allowed product.top k a b c) }
{
    a <= TOP && b <= TOP && c <= TOP && a != MARK && c != MARK && (b != MARK || k == RANGE)
}

// Whether a word is a fact's.
pub fn is_fact(word: Word) -> bool
    ensures answer { result ≡ is_fact product word }
{
    let k = kind_of(word);
    let a = first_of(word);
    let b = second_of(word);
    let c = third_of(word);
    is_shaped(k, b, c) && is_allowed(k, a, b, c)
}
