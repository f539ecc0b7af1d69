// Writing one word, of up to 128 data bits, under an opened code.
#![tactic(auto)]

ghost use Rattle.std.specs.Prelude.{◌≡◌, ◌≤◌, length};
ghost use Rattle.code.specs.Opened.{Laid};
ghost use Rattle.word.specs.Word.{joined};
ghost use Rattle.writing.specs.Writing.{refused_writing, answered, write_in, writing_of};

use code::{Denial, Opened, Refusal};

// The answer to writing: the check bits, 0 where it is refused. It is flat and no Result: C is handed it so (`desk_write`).
#[repr(C)]
#[derive(Clone, Copy, Default)]
pub struct CheckWord {
    pub number: usize,
    pub told: usize,
    pub check: u16,
}

impl From<Refusal> for CheckWord {
    ghost from_gives = { λ f a. a ≡ refused_writing f };

    fn from(refusal: Refusal) -> CheckWord {
        CheckWord {
            number: refusal.number,
            told: refusal.told,
            ..CheckWord::default()
        }
    }
}

// The check bits of data in two halves, solved for under the n columns of a code with k data bits; 7 for a stray bit.
#[tactic(auto, unfolding(crate::specs::Writing::write_in))]
fn write_in(columns: &[u16], k: usize, low: u64, high: u64) -> Result<CheckWord, Refusal>
    requires { k ≤ length columns.now }
    ensures { answered result ≡ write_in columns.now k (joined low high) }
{
    if word::stray(low, high, k) {
        return Err(Denial::Stray.into());
    }
    let s = word::mixed(&columns[..k], low, high);
    Ok(CheckWord {
        number: 0,
        told: 0,
        check: columns::solved(&columns[k..], s),
    })
}

// The check bits of data under an opened code, or the refusal of either.
fn write_under(opened: &Opened, low: u64, high: u64) -> Result<CheckWord, Refusal>
    requires { Laid opened.now }
    ensures { answered result ≡ writing_of opened.now (joined low high) }
{
    opened.standing?;
    write_in(&opened.columns[..opened.n], opened.k, low, high)
}

// The check bits of data under an opened code.
pub fn write(opened: Opened, low: u64, high: u64) -> CheckWord
    requires { Laid opened }
    ensures { result ≡ writing_of opened (joined low high) }
{
    write_under(&opened, low, high).unwrap_or_else(CheckWord::from)
}
