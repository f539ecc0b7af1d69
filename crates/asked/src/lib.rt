// What may be asked of a pass over a run of an image, over records of any edition: the refusals before a record is looked at.
// That d is at most 16 stays a clause: a struct around one number would have to be made at each call.
#![tactic(auto)]

ghost use Rattle.std.specs.Prelude.{◌≡◌, ◌≤◌};
ghost use Rattle.code.specs.Refusals.{only};
ghost use Rattle.asked.specs.Pass.{state_of, no_image, room_in, last_stamp, wrong_in};
ghost use Rattle.asked.specs.Misasked.{number_of, number_in};

use code::Refusal;
use record::{CHECK, HEAD, IMAGE_BOUND, STAMP};

// What a pass is told: its run, from the record `start` up to the record `end`, which is not counted, and its stamp.
#[derive(Clone, Copy)]
pub struct Pass {
    pub start: usize,
    pub end: usize,
    pub stamp: u32,
}

// Why a pass is refused before its records are looked at, each with its number.
#[derive(Clone, Copy)]
pub enum Misasked {
    NoImage = 12,
    NoRun = 14,
    Overfull = 17,
    Backdated = 16,
}

impl From<Misasked> for Refusal {
    ghost from_gives = { λ wrong refusal. refusal ≡ only (number_of wrong) };

    fn from(wrong: Misasked) -> Refusal {
        Refusal {
            number: wrong as usize,
            told: 0,
        }
    }
}

// Whether bytes are no image: half a record, or too many records.
pub fn no_image(d: usize, image: &[u8]) -> bool
    requires { d ≤ 16 }
    ensures { result ≡ no_image d image.now }
{
    let size = d + CHECK;
    let limit = IMAGE_BOUND / size * size;
    image.len() > limit || image.len() % size != 0
}

// How many entries a journal has room for.
pub fn room(d: usize, journal: &[u8]) -> usize
    requires { d ≤ 16 }
    ensures { result ≡ room_in d journal.now }
{
    journal.len() / (HEAD + 2 * (d + CHECK))
}

// The stamp of the last entry in use.
fn last_stamp(d: usize, journal: &[u8], used: usize) -> u64
    requires d_bound { d ≤ 16 }
    requires le_used { 1 ≤ used }
    requires used_bound { used ≤ room_in d journal.now }
    ensures { result ≡ last_stamp d journal.now used }
{
    let at = (used - 1) * (HEAD + 2 * (d + CHECK));
    let end = at + STAMP;
    record::number(&journal[at..end])
}

// What refuses a pass before its records are looked at: the first of 12, 14, 17 and 16.
pub fn wrong_in(
    d: usize,
    over: Pass,
    image: &[u8],
    journal: &[u8],
    used: usize,
) -> Result<(), Misasked>
    requires { d ≤ 16 }
    ensures { number_in result ≡ wrong_in d over (state_of image.now journal.now used) }
{
    if no_image(d, image) {
        return Err(Misasked::NoImage);
    }
    if over.start > over.end || over.end > image.len() / (d + CHECK) {
        return Err(Misasked::NoRun);
    }
    if used > room(d, journal) {
        return Err(Misasked::Overfull);
    }
    if used > 0 && (over.stamp as u64) < last_stamp(d, journal, used) {
        return Err(Misasked::Backdated);
    }
    Ok(())
}
