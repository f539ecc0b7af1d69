// The explanations of a word.
#![tactic(auto)]

ghost use Rattle.std.specs.Prelude.{◌≡◌};
ghost use Rattle.code.specs.Opened.{Laid, SoundOpened};
ghost use Rattle.explain.specs.Explanations.{refused_listing, answered, explain_of};

use code::{Denial, Opened, Refusal};
use word::Word;

// The answer: the list's length where it is done; the list itself stands in the lent bytes.
// It is flat and no Result, and the length stands beside the bytes: C lends and is handed them so (`desk_explain`).
#[repr(C)]
#[derive(Clone, Copy, Default)]
pub struct Listing {
    pub number: usize,
    pub told: usize,
    pub length: usize,
}

impl From<Refusal> for Listing {
    ghost from_gives = { λ f a. a ≡ refused_listing f };

    fn from(refusal: Refusal) -> Listing {
        Listing {
            number: refusal.number,
            told: refusal.told,
            ..Listing::default()
        }
    }
}

// The explanations of a word under an opened code, listed by its syndrome, or what is refused.
#[tactic(auto, unfolding(crate::specs::Explanations::explain_in, crate::specs::Explanations::listed_in))]
fn explain_under(
    opened: &Opened,
    word: Word,
    limit: usize,
    list: &mut [u8],
) -> Result<Listing, Refusal>
    requires laid { Laid opened.now }
    requires sound_opened { SoundOpened opened.now }
    ensures value { answered result ≡ (explain_of opened.now word limit list.old).answer }
    ensures list_after { list.new ≡ (explain_of opened.now word limit list.old).list }
{
    opened.standing?;
    if word.stray_in(opened.n, opened.k) {
        return Err(Denial::Stray.into());
    }
    if limit > 2 {
        return Err(Denial::LimitPastTwo.into());
    }
    let columns = &opened.columns[..opened.n];
    let s = word.syndrome_in(columns, opened.k);
    let length = listing::put_list(columns, s, limit, list);
    if length > list.len() / 2 {
        return Err(Denial::ListTooLong(length).into());
    }
    Ok(Listing {
        number: 0,
        told: 0,
        length,
    })
}

// The explanations of a word under an opened code, listed by its syndrome.
pub fn explain(opened: Opened, word: Word, limit: usize, list: &mut [u8]) -> Listing
    requires laid { Laid opened }
    requires sound_opened { SoundOpened opened }
    ensures value { result ≡ (explain_of opened word limit list.old).answer }
    ensures list_after { list.new ≡ (explain_of opened word limit list.old).list }
{
    explain_under(&opened, word, limit, list).unwrap_or_else(Listing::from)
}
