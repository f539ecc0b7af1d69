// The answers of questions about words of 64 data bits, as C reads them: they have no high half. And the version of what C links.
#![tactic(auto)]

ghost use Rattle.std.specs.Prelude.{◌≡◌};
ghost use Rattle.desk.specs.Answers.{word_with, narrowed, recovered_by, bad_places_by};

use finder::Found;
use reading::Reading;
use recover::Recovery;
use word::Word;

// The version of what a caller links: raised by each landing that changes a struct, a size or a meaning.
pub const VERSION: usize = 5;

// A word of 64 data bits has nothing in its high half.
pub fn word_with(data: u64, check: u16) -> Word
    ensures { result ≡ word_with «data» check }
{
    Word {
        low: data,
        high: 0,
        check,
    }
}

// Reading: verdict, place, the word handed back, and the syndrome. These are numbers, here and below, since C reads them (include/desk.h).
#[repr(C)]
#[derive(Clone, Copy)]
pub struct ReadWord {
    pub number: usize,
    pub told: usize,
    pub verdict: usize,
    pub place: usize,
    pub data: u64,
    pub check: u16,
    pub syndrome: u16,
}

impl From<Reading> for ReadWord {
    ghost from_gives = { λ reading r. r ≡ narrowed reading };

    fn from(reading: Reading) -> ReadWord {
        ReadWord {
            number: reading.number,
            told: reading.told,
            verdict: reading.verdict,
            place: reading.place,
            data: reading.word.low,
            check: reading.word.check,
            syndrome: reading.syndrome,
        }
    }
}

// Places known to be bad: the code word that differs from the word as read in bad places and in few others.
#[repr(C)]
#[derive(Clone, Copy)]
pub struct Recovered {
    pub number: usize,
    pub told: usize,
    pub data: u64,
    pub check: u16,
}

impl From<Recovery> for Recovered {
    ghost from_gives = { λ recovery r. r ≡ recovered_by recovery };

    fn from(recovery: Recovery) -> Recovered {
        Recovered {
            number: recovery.number,
            told: recovery.told,
            data: recovery.word.low,
            check: recovery.word.check,
        }
    }
}

// The finder: the places where two reads agree, as ones in data and check bits. The C interface has two structs with these fields.
#[repr(C)]
#[derive(Clone, Copy)]
pub struct BadPlaces {
    pub number: usize,
    pub told: usize,
    pub data: u64,
    pub check: u16,
}

impl From<Found> for BadPlaces {
    ghost from_gives = { λ found r. r ≡ bad_places_by found };

    fn from(found: Found) -> BadPlaces {
        BadPlaces {
            number: found.number,
            told: found.told,
            data: found.word.low,
            check: found.word.check,
        }
    }
}
