// What every question asks of a code, of any family and edition: that it can be opened, and how long its records are.
#![tactic(auto)]

ghost use Rattle.std.specs.Prelude.{◌≡◌, ℕ};
ghost use Rattle.code.specs.declared.Opened.{Opened};
ghost use Rattle.code.specs.Opened.{Laid, SoundOpened, opened_of, opened_wide};
ghost use Rattle.rows.specs.Opened.{opened_rows, opened_wide_rows};
ghost use Rattle.at_record.specs.Outcome.{Held};
ghost use Rattle.record.specs.Layout.{data_size, wide_size};

use code::{Code, Opened, WideCode};
use record::{DATA, WIDE_DATA};
use rows::{RowCode, WideRowCode};

// A code as it is handed about, in its own places.
pub trait Opens {
    ghost opened: { Self → Opened };

    ghost DATA: { ℕ };

    // The bytes of data in a record of its edition.
    const DATA: usize;

    // What is asked, whatever the family: laid out, sound where it is accepted, and its data held by a record. The code is taken and not
    // borrowed: behind a reference the check does not see how long its list is.
    fn open(self) -> Opened
        ensures value { result ≡ opened self }
        ensures laid { Laid result }
        ensures sound_opened { SoundOpened result }
        ensures held { Held DATA result.k };
}

// Four structs, of two families in two editions: the C interface, where a function takes no generic struct.
impl Opens for Code {
    ghost opened = { opened_of };

    ghost DATA = { data_size };

    const DATA: usize = DATA;

    #[tactic(auto, using(sound::proofs::Hsiao::sound_code))]
    fn open(self) -> Opened {
        code::open_code(self)
    }
}

impl Opens for WideCode {
    ghost opened = { opened_wide };

    ghost DATA = { wide_size };

    const DATA: usize = WIDE_DATA;

    #[tactic(auto, using(sound::proofs::Hsiao::sound_wide))]
    fn open(self) -> Opened {
        code::open_wide(self)
    }
}

impl Opens for RowCode {
    ghost opened = { opened_rows };

    ghost DATA = { data_size };

    const DATA: usize = DATA;

    #[tactic(auto, using(sound::proofs::Rows::sound_rows))]
    fn open(self) -> Opened {
        rows::open_rows(self)
    }
}

impl Opens for WideRowCode {
    ghost opened = { opened_wide_rows };

    ghost DATA = { wide_size };

    const DATA: usize = WIDE_DATA;

    #[tactic(auto, using(sound::proofs::Rows::sound_wide_rows))]
    fn open(self) -> Opened {
        rows::open_wide_rows(self)
    }
}
