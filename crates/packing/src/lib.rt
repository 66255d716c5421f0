// The one number that a call across the C interface answers: four numbers of 16 bits, or an answer and a
// text's length.
//
// The functions serve the crates above; what they require stands in their contracts. The crate assumes
// nothing.
#![tactic(auto)]

ghost use Rattle.std.specs.Prelude.{◌≡◌, ◌<◌};
ghost use Rattle.packing.specs.Packed.{packed, packed_outcome, packed_text};

use table::Refusal;

// The values of a number of 16 bits.
pub const FIELD: u64 = 65536;

// Four numbers of 16 bits each, lowest first.
pub fn pack(answer: u8, second: u16, third: u16, fourth: u16) -> u64
    ensures answer { result ≡ packed answer second third fourth }
{
    answer as u64 + FIELD * (second as u64 + FIELD * (third as u64 + FIELD * fourth as u64))
}

// The three numbers that a call tells if it is not refused.
#[derive(Clone, Copy)]
pub struct Told {
    pub second: u16,
    pub third: u16,
    pub fourth: u16,
}

// What a call answers: 0 and what it tells, or its refusal and zeros.
pub fn pack_outcome(outcome: Result<Told, Refusal>) -> u64
    ensures answer { result ≡ packed_outcome outcome }
{
    match outcome {
        Ok(told) => pack(0, told.second, told.third, told.fourth),
        Err(refusal) => pack(u8::from(refusal), 0, 0, 0),
    }
}

// An answer in 16 bits, and a text's length in the bits above.
pub fn pack_text(answer: u8, length: usize) -> u64
    requires length { length < 4294967296 }
    ensures answer { result ≡ packed_text answer length }
{
    answer as u64 + FIELD * length as u64
}
