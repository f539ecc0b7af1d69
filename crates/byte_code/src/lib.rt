// The byte-correcting code with bytes of three bits: seven data bytes, three check bytes.
#![tactic(auto)]

ghost use Rattle.std.specs.Prelude.{◌≡◌, ◌<◌};
ghost use Rattle.byte_code.specs.Reading as specs;

use byte_parts::{Parts, data_sum, parts_of, power_t};

// The number of a byte: a kind of its own, so that it is not taken for a place.
#[repr(C)]
#[derive(Clone, Copy)]
pub struct ByteNumber(pub usize);

// The answer to writing: the whole word. The refusal is a number in it, as C has it.
#[repr(C)]
#[derive(Clone, Copy)]
pub struct ByteWriting {
    pub number: usize,
    pub told: usize,
    pub word: u64,
}

// The answer to reading: verdict, byte number, and the word put right or as read. Refusal and verdict are numbers, as C has them.
#[repr(C)]
#[derive(Clone, Copy)]
pub struct ByteReading {
    pub number: usize,
    pub told: usize,
    pub verdict: usize,
    pub byte: ByteNumber,
    pub word: u64,
}

// The data byte that step 3 finds: the error is part 1, and its powers of T are parts 2 and 3.
fn solution_in(s: Parts) -> Option<usize>
    requires { s.first < 8 }
    ensures { result ≡ specs.solution_in s 7 0 }
{
    for i in 0..7 {
        if power_t(i, s.first) == s.second && power_t(2 * i, s.first) == s.third {
            return Some(i);
        }
    }
    None
}

// Verdicts 0 and 3: no byte, and the word as read.
fn as_read(verdict: usize, word: u64) -> ByteReading
    ensures { result ≡ specs.as_read verdict word }
{
    ByteReading {
        number: 0,
        told: 0,
        verdict,
        byte: ByteNumber(255),
        word,
    }
}

// Verdicts 1 and 2: the pattern taken from the byte that is named.
fn put_right(verdict: usize, byte: ByteNumber, pattern: u64, word: u64) -> ByteReading
    requires byte_bound { byte.0 < 10 }
    requires pattern_bound { pattern < 8 }
    ensures { result ≡ specs.put_right verdict byte pattern word }
{
    let at = 3 * byte.0;
    let error = pattern << at;
    ByteReading {
        number: 0,
        told: 0,
        verdict,
        byte,
        word: word ^ error,
    }
}

// The three steps.
#[tactic(auto, using(crate::proofs::Steps::solution_below), unfolding(crate::specs::Reading::read_by))]
fn read_by(s: Parts, word: u64) -> ByteReading
    requires first_bound { s.first < 8 }
    requires second_bound { s.second < 8 }
    requires third_bound { s.third < 8 }
    ensures { result ≡ specs.read_by s word }
{
    match (s.first, s.second, s.third) {
        (0, 0, 0) => as_read(0, word),
        (error, 0, 0) => put_right(2, ByteNumber(7), error, word),
        (0, error, 0) => put_right(2, ByteNumber(8), error, word),
        (0, 0, error) => put_right(2, ByteNumber(9), error, word),
        _ => match solution_in(s) {
            Some(i) => put_right(1, ByteNumber(i), s.first, word),
            None => as_read(3, word),
        },
    }
}

// The word whose data bits are those given and whose three parts are zero.
#[tactic(auto, unfolding(crate::specs::Reading::byte_writing_of, crate::specs::Reading::byte_word))]
pub fn write(data: u64) -> ByteWriting
    ensures { result ≡ specs.byte_writing_of «data» }
{
    if data >> 21 > 0 {
        return ByteWriting {
            number: 7,
            told: 0,
            word: 0,
        };
    }
    let first = data_sum(0, data) << 21;
    let second = data_sum(1, data) << 24;
    let third = data_sum(2, data) << 27;
    ByteWriting {
        number: 0,
        told: 0,
        word: data + first + second + third,
    }
}

// The reading of a word.
#[tactic(auto, unfolding(crate::specs::Reading::byte_reading_of))]
pub fn read(word: u64) -> ByteReading
    ensures { result ≡ specs.byte_reading_of word }
{
    if word >> 30 > 0 {
        return ByteReading {
            number: 7,
            told: 0,
            verdict: 0,
            byte: ByteNumber(0),
            word: 0,
        };
    }
    read_by(parts_of(word), word)
}
