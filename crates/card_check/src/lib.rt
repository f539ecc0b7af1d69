// The card check of an opened code.
#![tactic(auto)]

ghost use Rattle.std.specs.Prelude.{◌≡◌, ◌≤◌, length};
ghost use Rattle.code.specs.Opened.{Laid};
ghost use Rattle.card_check.specs.Checking.{refused_cards, answered, carded_in, carded_of};

use code::{Denial, Opened, Refusal};

// The answer to the card question: the first weak card and its smallest mask, where the number is 9.
// It is flat and no Option of a Weak: C is handed it so (`desk_cards`).
#[repr(C)]
#[derive(Clone, Copy, Default)]
pub struct CardCheck {
    pub number: usize,
    pub told: usize,
    pub card: usize,
    pub mask: usize,
}

impl From<Refusal> for CardCheck {
    ghost from_gives = { λ f a. a ≡ refused_cards f };

    fn from(refusal: Refusal) -> CardCheck {
        CardCheck {
            number: refusal.number,
            told: refusal.told,
            ..CardCheck::default()
        }
    }
}

// The n columns of a code with k data places: 8 for the size of a card, else what the search finds.
#[tactic(auto, unfolding(crate::specs::Checking::carded_in))]
fn check_in(columns: &[u16], k: usize, b: usize) -> Result<CardCheck, Refusal>
    requires { (k ≤ length columns.now) × (length columns.now ≤ 1024) }
    ensures { answered result ≡ carded_in columns.now k b }
{
    if b < 2 || b > 8 {
        return Err(Denial::CardSize.into());
    }
    let Some(weak) = cards::first_weak(columns, k, b) else {
        return Ok(CardCheck::default());
    };
    Ok(CardCheck {
        number: 9,
        told: 0,
        card: weak.card,
        mask: weak.mask,
    })
}

// Whether an opened code is card-proof for cards of b places, or what is refused.
fn check_under(opened: &Opened, b: usize) -> Result<CardCheck, Refusal>
    requires { Laid opened.now }
    ensures { answered result ≡ carded_of opened.now b }
{
    opened.standing?;
    check_in(&opened.columns[..opened.n], opened.k, b)
}

// Whether an opened code is card-proof for cards of b places.
pub fn card_check(opened: Opened, b: usize) -> CardCheck
    requires { Laid opened }
    ensures { result ≡ carded_of opened b }
{
    check_under(&opened, b).unwrap_or_else(CardCheck::from)
}
