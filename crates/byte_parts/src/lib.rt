// Words of ten bytes of three bits: the matrix T, and the three parts of a word's syndrome. A vector of three bits is a number below 8, its
// lowest bit the top of the vector.
#![tactic(auto)]

ghost use Rattle.std.specs.Prelude.{◌≡◌, ◌≤◌, ◌<◌};
ghost use Rattle.byte_parts.specs.Vectors as vectors;
ghost use Rattle.byte_parts.specs.Parts as parts;

// The three parts of a syndrome.
#[derive(Clone, Copy)]
pub struct Parts {
    pub first: u64,
    pub second: u64,
    pub third: u64,
}

// T takes (b0, b1, b2) to (b2, b0 + b2, b1), sums without carry.
#[tactic(auto, using(crate::proofs::Vectors::t_of))]
fn times_t(v: u64) -> u64
    requires { v < 8 }
    ensures value { result ≡ vectors.times_t v }
    ensures upper_bound { result < 8 }
{
    let b0 = v % 2;
    let b1 = v / 2 % 2;
    let b2 = v / 4;
    b2 + (b0 + b2) % 2 * 2 + b1 * 4
}

// The i-th power of T, times a vector.
#[tactic(auto, using(crate::proofs::Vectors::power_lt), unfolding(crate::specs::Vectors::power_t))]
pub fn power_t(i: usize, v: u64) -> u64
    requires { v < 8 }
    ensures value { result ≡ vectors.power_t i v }
    ensures upper_bound { result < 8 }
{
    let mut u = v;
    for _ in 0..i {
        u = times_t(u);
    }
    u
}

// Byte t of a word.
fn byte_at(word: u64, t: usize) -> u64
    requires { t < 10 }
    ensures { result ≡ parts.byte_at word t }
{
    (word >> (3 * t)) % 8
}

// The sum over the seven data bytes, byte t under the power `step` times t of T.
#[tactic(auto, using(crate::proofs::Sums::sum_lt), unfolding(crate::specs::Parts::sum_to))]
pub fn data_sum(step: usize, word: u64) -> u64
    requires { step ≤ 2 }
    ensures value { result ≡ parts.data_sum step word }
    ensures upper_bound { result < 8 }
{
    let mut sum = 0;
    for t in 0..7 {
        sum ^= power_t(step * t, byte_at(word, t));
    }
    sum
}

#[tactic(auto, unfolding(crate::specs::Parts::parts_of))]
pub fn parts_of(word: u64) -> Parts
    ensures { result ≡ parts.parts_of word }
{
    Parts {
        first: data_sum(0, word) ^ byte_at(word, 7),
        second: data_sum(1, word) ^ byte_at(word, 8),
        third: data_sum(2, word) ^ byte_at(word, 9),
    }
}
