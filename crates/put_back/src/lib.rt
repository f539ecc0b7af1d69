// The put-back: an image as it was read, from its journal.
#![tactic(auto)]

ghost use Rattle.std.specs.Prelude.{◌≡◌, ◌≤◌};
ghost use Rattle.asked.specs.Pass.{room_in};
ghost use Rattle.put_back.specs.Back.{told_by, answer_of, back_from, put_back_of};

use reader::Reader;

// Why a put-back says no: the bytes are no image, more entries are in use than the journal has room for, or an entry does not match behind
// `count` others that were put back.
#[derive(Clone, Copy)]
enum Refusal {
    NoImage,
    Overfull,
    NoMatch { count: usize },
}

// The answer of a put-back: how many entries were put back, also where it stopped (18).
#[repr(C)]
#[derive(Clone, Copy)]
pub struct PutBack {
    pub number: usize,
    pub told: usize,
    pub count: usize,
}

// Numbers, as C has them.
impl From<Result<usize, Refusal>> for PutBack {
    ghost from_gives = { λ done answer. answer ≡ told_by done };

    fn from(done: Result<usize, Refusal>) -> PutBack {
        let (number, count) = match done {
            Ok(count) => (0, count),
            Err(Refusal::NoImage) => (12, 0),
            Err(Refusal::Overfull) => (17, 0),
            Err(Refusal::NoMatch { count }) => (18, count),
        };
        PutBack {
            number,
            told: 0,
            count,
        }
    }
}

// From the last entry in use to the first; it stops at the first that does not match.
fn back_in(d: usize, image: &mut [u8], journal: &[u8], used: usize) -> Result<usize, Refusal>
    requires d_bound { d ≤ 16 }
    requires used_bound { used ≤ room_in d journal.now }
    ensures value { result ≡ answer_of (back_from d journal.now used 0 image.old) }
    ensures image_after { image.new ≡ (back_from d journal.now used 0 image.old).image }
{
    let mut reader = Reader {
        journal,
        place: used,
    };
    // A `while`: it goes by the place that the reader holds, and counts nothing beside it.
    while 0 < reader.place {
        if reader.step_back(d, image).is_none() {
            let count = used - reader.place;
            return Err(Refusal::NoMatch { count });
        }
    }
    Ok(used)
}

// How many entries are put back, or why it says no.
#[tactic(auto, unfolding(crate::specs::Back::put_back_of))]
fn asked_back(d: usize, image: &mut [u8], journal: &[u8], used: usize) -> Result<usize, Refusal>
    requires { d ≤ 16 }
    ensures value { told_by result ≡ (put_back_of d image.old journal.now used).answer }
    ensures image_after { image.new ≡ (put_back_of d image.old journal.now used).image }
{
    if asked::no_image(d, image) {
        return Err(Refusal::NoImage);
    }
    if used > asked::room(d, journal) {
        return Err(Refusal::Overfull);
    }
    back_in(d, image, journal, used)
}

// The put-back of an image with d bytes of data in each record; `used` entries of the journal are in use.
pub fn put_back(d: usize, image: &mut [u8], journal: &[u8], used: usize) -> PutBack
    requires { d ≤ 16 }
    ensures value { result ≡ (put_back_of d image.old journal.now used).answer }
    ensures image_after { image.new ≡ (put_back_of d image.old journal.now used).image }
{
    PutBack::from(asked_back(d, image, journal, used))
}
