// Codes with a chosen set of rows (02's request 109), and how they are opened.
#![tactic(auto)]

ghost use Rattle.std.specs.Prelude.{◌≡◌, ◌-◌, ◌≤◌, length};
ghost use Rattle.code.specs.Opened.{Laid};
ghost use Rattle.rows.specs.Opened.{opened_rows_in, opened_rows, opened_wide_rows};

use code::{Opened, Refusal};

// A code of this family as it is handed about: n columns, the last r of them check columns, and a set of rows, bit j for row j.
// Places past n hold 0. RowCode and WideRowCode stay two structs, since what C is handed cannot be generic.
#[repr(C)]
#[derive(Clone, Copy)]
pub struct RowCode {
    pub columns: [u16; 80],
    pub n: usize,
    pub r: usize,
    pub rows: u16,
}

// The same of the wide edition, of 144 places.
#[repr(C)]
#[derive(Clone, Copy)]
pub struct WideRowCode {
    pub columns: [u16; 144],
    pub n: usize,
    pub r: usize,
    pub rows: u16,
}

// In any number of places up to 144: a refused code ends the job at once. Its check columns stand among its own, so no single ones are
// laid out behind them.
#[tactic(auto, using(crate::proofs::Laid::accepted_few, crate::proofs::Laid::accepted_rows, crate::proofs::Answers::no_singles))]
fn open_in(places: &[u16], n: usize, r: usize, rows: u16) -> Opened
    requires { (16 ≤ length places.now) × (length places.now ≤ 144) }
    ensures { result ≡ opened_rows_in (length places.now - 16) places.now n r rows }
{
    let verdict = quick_judge::judge_rows_in(places, n, r, rows);
    let Ok(()) = verdict else {
        return code::refuse(verdict.map_err(Refusal::from));
    };
    code::lay_out(&places[..n], 0, n - r, rows)
}

// A code of 80 places.
#[tactic(auto, using(crate::proofs::Laid::opened_rows_lem))]
pub fn open_rows(code: RowCode) -> Opened
    ensures value { result ≡ opened_rows code }
    ensures laid { Laid result }
    ensures k_bound { result.k ≤ 64 }
{
    open_in(&code.columns, code.n, code.r, code.rows)
}

// A code of 144 places.
#[tactic(auto, using(crate::proofs::Laid::opened_rows_lem))]
pub fn open_wide_rows(code: WideRowCode) -> Opened
    ensures value { result ≡ opened_wide_rows code }
    ensures laid { Laid result }
    ensures k_bound { result.k ≤ 128 }
{
    open_in(&code.columns, code.n, code.r, code.rows)
}
