// The finder of bad places, from two reads after a pattern and its complement were written.
#![tactic(auto)]

ghost use Rattle.std.specs.Prelude.{◌≡◌, ◌+◌, ◌-◌, ◌^◌, ◌≤◌};
ghost use Rattle.code.specs.Opened.{Laid};
ghost use Rattle.word.specs.Word.{in_parts};
ghost use Rattle.finder.specs.Finder.{every_place, xor_words, refused_found, answered, find_of};

use code::{Denial, Opened, Refusal};
use word::Word;

// A number of `width` ones, at most 64.
#[tactic(auto, using(columns::proofs::Words::shl_one))]
fn ones(width: usize) -> u64
    requires { width ≤ 64 }
    ensures { result ≡ every_place width }
{
    if width == 64 {
        return u64::MAX;
    }
    (1 << width) - 1
}

// A word of n places, k of them data, with a one in each.
fn every_place(n: usize, k: usize) -> Word
    requires { (k ≤ n) × (n ≤ k + 16) × (k ≤ 128) }
    ensures { result ≡ in_parts k (every_place n) }
{
    let check = ones(n - k) as u16;
    Word {
        low: ones(k.min(64)),
        high: ones(k.saturating_sub(64)),
        check,
    }
}

fn xored(a: Word, b: Word) -> Word
    ensures { result ≡ xor_words a b }
{
    Word {
        low: a.low ^ b.low,
        high: a.high ^ b.high,
        check: a.check ^ b.check,
    }
}

// The answer: the bad places as ones, none where it is refused. It is flat and no Result: C is handed it so (`desk_wide_find_bad`).
#[repr(C)]
#[derive(Clone, Copy, Default)]
pub struct Found {
    pub number: usize,
    pub told: usize,
    pub word: Word,
}

impl From<Refusal> for Found {
    ghost from_gives = { λ f a. a ≡ refused_found f };

    fn from(refusal: Refusal) -> Found {
        Found {
            number: refusal.number,
            told: refusal.told,
            ..Found::default()
        }
    }
}

// The places below n where two reads agree, or what is refused.
#[tactic(auto, unfolding(crate::specs::Finder::find_in))]
fn find_under(opened: &Opened, first: Word, second: Word) -> Result<Found, Refusal>
    requires { Laid opened.now }
    ensures { answered result ≡ find_of opened.now first second }
{
    opened.standing?;
    if first.stray_in(opened.n, opened.k) || second.stray_in(opened.n, opened.k) {
        return Err(Denial::Stray.into());
    }
    let differing = xored(first, second);
    Ok(Found {
        number: 0,
        told: 0,
        word: xored(every_place(opened.n, opened.k), differing),
    })
}

// The places below n where two reads agree: each place that keeps what is written differs in them.
pub fn find_bad(opened: Opened, first: Word, second: Word) -> Found
    requires { Laid opened }
    ensures { result ≡ find_of opened first second }
{
    find_under(&opened, first, second).unwrap_or_else(Found::from)
}
