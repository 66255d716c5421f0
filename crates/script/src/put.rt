// Numbers and words taken from bytes, and words put into lent ones.
ghost use Rattle.std.specs.Prelude.{◌≡◌, ◌≤◌, ◌<◌, length, take, drop};
ghost use Rattle.std.specs.Int.{w16, from_be_bytes};

use table::Word;

// The number of the first two bytes, and what is behind them; 0 and nothing where there are not so many.
pub fn split_number(given: &[u8]) -> (usize, &[u8])
    ensures number { 2 ≤ length given.now → result.0 ≡ from_be_bytes w16 (take 2 given.now) }
    ensures none { length given.now < 2 → result.0 ≡ 0 }
    ensures behind { result.1.now ≡ drop 2 given.now }
{
    match given.split_first_chunk::<2>() {
        Some((two, behind)) => (u16::from_be_bytes(*two) as usize, behind),
        None => (0, &[]),
    }
}

// The first word of bytes, four to a word, highest first; w where there are not so many.
pub fn word_in(given: &[u8], beyond: Word) -> Word {
    match given.first_chunk::<4>() {
        Some(four) => Word::from_be_bytes(*four),
        None => beyond,
    }
}

// The words of bytes, and then the last of them to the end.
pub fn put_words(table: &mut [Word], given: &[u8]) {
    let mut rest = given;
    let mut last = 0;
    for word in table {
        if let Some((four, behind)) = rest.split_first_chunk::<4>() {
            last = Word::from_be_bytes(*four);
            rest = behind;
        }
        *word = last;
    }
}

// Copies words, as far as both go.
pub fn copy_common(from: &[Word], to: &mut [Word]) {
    for (word, other) in to.iter_mut().zip(from) {
        *word = *other;
    }
}
