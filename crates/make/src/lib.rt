// The maker: a code from k and r alone, whose columns have as few ones as can be.
#![tactic(auto)]

ghost use Rattle.std.specs.Prelude.{◌≡◌, ◌≤◌, IfOk};
ghost use Rattle.make.specs.Made.{number_of, number_in, make_number, places_by, refused_made, refused_wide, make_of, make_wide};

use code::{Code, WideCode};

// Why no code can be made: k is none or too many data bits, r too few or too many check bits, or there are fewer than k columns.
#[derive(Clone, Copy, PartialEq, Eq)]
enum Unmade {
    DataBits,
    CheckBits,
    ColumnRoom,
}

impl Unmade {
    // Document 01's number.
    fn number(self) -> usize
        ensures { result ≡ number_of self }
    {
        match self {
            Unmade::DataBits => 1,
            Unmade::CheckBits => 2,
            Unmade::ColumnRoom => 15,
        }
    }
}

// Whether there is a code of k data bits, of at most `most`, and r check bits.
fn makeable(most: usize, k: usize, r: usize) -> Result<(), Unmade>
    ensures { number_in result ≡ make_number most k r }
{
    if k == 0 || k > most {
        return Err(Unmade::DataBits);
    }
    if r < 3 || r > 16 {
        return Err(Unmade::CheckBits);
    }
    let half = 1usize << (r - 1);
    if k > half - r {
        return Err(Unmade::ColumnRoom);
    }
    Ok(())
}

// The columns in any number of places: the first k are filled.
fn made_columns<const PLACES: usize>(k: usize, r: usize) -> Result<[u16; PLACES], Unmade>
    requires { PLACES ≤ 128 }
    ensures number { number_in result ≡ make_number PLACES k r }
    ensures columns { IfOk result (λ columns. columns ≡ places_by 0 PLACES k r) }
{
    makeable(PLACES, k, r)?;
    let mut columns = [0u16; PLACES];
    order::put_columns(&mut columns[..k], r);
    Ok(columns)
}

// What the maker answers: 0 and the code, or the refusal's number and a code of nothing but zeros.
// Made and WideMade stay two structs, since what C is handed cannot be generic.
#[repr(C)]
#[derive(Clone, Copy)]
pub struct Made {
    pub number: usize,
    pub code: Code,
}

impl From<Unmade> for Made {
    ghost from_gives = { λ unmade made. made ≡ refused_made unmade };

    fn from(unmade: Unmade) -> Made {
        Made {
            number: unmade.number(),
            code: Code {
                columns: [0; 64],
                k: 0,
                r: 0,
            },
        }
    }
}

// A code of 64 places.
pub fn make(k: usize, r: usize) -> Made
    ensures { result ≡ make_of k r }
{
    match made_columns(k, r) {
        Ok(columns) => Made {
            number: 0,
            code: Code { columns, k, r },
        },
        Err(unmade) => Made::from(unmade),
    }
}

// The same in the wide edition.
#[repr(C)]
#[derive(Clone, Copy)]
pub struct WideMade {
    pub number: usize,
    pub code: WideCode,
}

impl From<Unmade> for WideMade {
    ghost from_gives = { λ unmade made. made ≡ refused_wide unmade };

    fn from(unmade: Unmade) -> WideMade {
        WideMade {
            number: unmade.number(),
            code: WideCode {
                columns: [0; 128],
                k: 0,
                r: 0,
            },
        }
    }
}

// A code of 128 places.
pub fn make_wide(k: usize, r: usize) -> WideMade
    ensures { result ≡ make_wide k r }
{
    match made_columns(k, r) {
        Ok(columns) => WideMade {
            number: 0,
            code: WideCode { columns, k, r },
        },
        Err(unmade) => WideMade::from(unmade),
    }
}
