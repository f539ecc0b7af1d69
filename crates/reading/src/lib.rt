// Reading one word, of up to 128 data bits, under an opened code.
#![tactic(auto)]

ghost use Rattle.std.specs.Prelude.{◌≡◌, ◌≤◌};
ghost use Rattle.code.specs.Opened.{Laid};
ghost use Rattle.verdict.specs.Places.{NamesPlace};
ghost use Rattle.reading.specs.Reading.{mended_by, refused_reading, answered, reading_by, reading_of};

use code::{Denial, Opened, Refusal};
use verdict::{Finding, Verdict};
use word::{Sight, Word};

// The word handed back: verdicts 1 and 2 flip the place that they name.
fn mended(verdict: Verdict, k: usize, word: Word) -> Word
    requires k_bound { k ≤ 128 }
    requires names_place { NamesPlace k verdict }
    ensures { result ≡ mended_by verdict k word }
{
    match verdict {
        Verdict::Data(p) | Verdict::Check(p) => word.flipped_in(k, p),
        _ => word,
    }
}

// The answer to a reading: verdict, place, syndrome and the word handed back, all 0 where it is refused.
// It is flat, with `number` and `told` of its own, and not a Result: C is handed it so (`desk_wide_read`).
#[repr(C)]
#[derive(Clone, Copy, Default)]
pub struct Reading {
    pub number: usize,
    pub told: usize,
    pub verdict: usize,
    pub place: usize,
    pub syndrome: u16,
    pub word: Word,
}

impl From<Refusal> for Reading {
    ghost from_gives = { λ f a. a ≡ refused_reading f };

    fn from(refusal: Refusal) -> Reading {
        Reading {
            number: refusal.number,
            told: refusal.told,
            ..Reading::default()
        }
    }
}

// The answer to a look at a word: 7 for a stray word, else what its verdict gives.
fn reading_by(sight: Sight, k: usize, word: Word) -> Result<Reading, Refusal>
    requires k_bound { k ≤ 128 }
    requires names_place { NamesPlace k sight.verdict }
    ensures { answered result ≡ reading_by sight.verdict sight.syndrome k word }
{
    if let Verdict::Stray = sight.verdict {
        return Err(Denial::Stray.into());
    }
    let finding = Finding::from(sight.verdict);
    Ok(Reading {
        number: 0,
        told: 0,
        verdict: finding.verdict,
        place: finding.place,
        syndrome: sight.syndrome,
        word: mended(sight.verdict, k, word),
    })
}

// The reading of a word under an opened code, or the refusal of either.
// `Laid` stays a clause, here and in each question: as an invariant of Opened its type would ask more of callers than it does.
fn read_under(opened: &Opened, word: Word) -> Result<Reading, Refusal>
    requires { Laid opened.now }
    ensures { answered result ≡ reading_of opened.now word }
{
    opened.standing?;
    let sight = word.read_in(&opened.columns[..opened.n], opened.k, opened.rows);
    reading_by(sight, opened.k, word)
}

// The reading of a word under an opened code.
pub fn read(opened: Opened, word: Word) -> Reading
    requires { Laid opened }
    ensures { result ≡ reading_of opened word }
{
    read_under(&opened, word).unwrap_or_else(Reading::from)
}
