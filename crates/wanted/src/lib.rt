// Check bits wanted.
#![tactic(auto)]

ghost use Rattle.std.specs.Prelude.{◌≡◌};
ghost use Rattle.wanted.specs.Wanted.{handed_out, wanted_in};

// The number, and the check bits where it is 0.
#[repr(C)]
#[derive(Clone, Copy)]
pub struct CheckBits {
    pub number: usize,
    pub bits: usize,
}

// The smallest number of check bits for which a code of k data bits exists, of at most `most` of them.
#[tactic(auto, unfolding(crate::specs::Wanted::band_of, crate::specs::Wanted::wanted_in))]
fn bits_in(most: usize, k: usize) -> Option<usize>
    ensures { handed_out result ≡ wanted_in most k }
{
    if k > most {
        return None;
    }
    match k {
        0 => None,
        1 => Some(3),
        2..=4 => Some(4),
        5..=11 => Some(5),
        12..=26 => Some(6),
        27..=57 => Some(7),
        58..=120 => Some(8),
        _ => Some(9),
    }
}

// The same as C is handed it, for codes of 64 places and of 128.
pub fn check_bits_wanted<const MOST: usize>(k: usize) -> CheckBits
    ensures { result ≡ wanted_in MOST k }
{
    match bits_in(MOST, k) {
        Some(bits) => CheckBits { number: 0, bits },
        None => CheckBits { number: 1, bits: 0 },
    }
}
