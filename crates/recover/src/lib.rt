// The proper word that differs from a word as read in places known to be bad, and in few others.
#![tactic(auto)]

ghost use Rattle.std.specs.Prelude.{◌≡◌};
ghost use Rattle.code.specs.Opened.{Laid, SoundOpened};
ghost use Rattle.recover.specs.Recover.{refused_recovery, answered, recover_of};

use code::{Denial, Opened, Refusal};
use word::Word;

// The answer: the code word, 0 where it is refused. It is flat and no Result: C is handed it so (`desk_wide_recover`).
#[repr(C)]
#[derive(Clone, Copy, Default)]
pub struct Recovery {
    pub number: usize,
    pub told: usize,
    pub word: Word,
}

impl From<Refusal> for Recovery {
    ghost from_gives = { λ f a. a ≡ refused_recovery f };

    fn from(refusal: Refusal) -> Recovery {
        Recovery {
            number: refusal.number,
            told: refusal.told,
            ..Recovery::default()
        }
    }
}

// The code word that a word as read under an opened code was, where some of its places are bad, or what is refused.
#[tactic(auto, unfolding(crate::specs::Recover::recover_in))]
fn recover_under(opened: &Opened, word: Word, bad: &[usize]) -> Result<Recovery, Refusal>
    requires laid { Laid opened.now }
    requires sound_opened { SoundOpened opened.now }
    ensures { answered result ≡ recover_of opened.now word bad.now }
{
    opened.standing?;
    if word.stray_in(opened.n, opened.k) {
        return Err(Denial::Stray.into());
    }
    if reach::wrong_places(opened.n, bad) {
        return Err(Denial::WrongPlaces.into());
    }
    let flips = (3 - bad.len()) / 2;
    let columns = &opened.columns[..opened.n];
    let Some(word) = reach::reach(columns, opened.k, flips, word, bad) else {
        return Err(Denial::OutOfReach.into());
    };
    Ok(Recovery {
        number: 0,
        told: 0,
        word,
    })
}

// The code word that a word as read under an opened code was, where some of its places are bad.
pub fn recover(opened: Opened, word: Word, bad: &[usize]) -> Recovery
    requires laid { Laid opened }
    requires sound_opened { SoundOpened opened }
    ensures { result ≡ recover_of opened word bad.now }
{
    recover_under(&opened, word, bad).unwrap_or_else(Recovery::from)
}
