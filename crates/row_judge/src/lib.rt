// The judge of codes with a chosen set of rows (02's request 109).
#![tactic(auto)]

ghost use Rattle.std.specs.Prelude.{◌≡◌, ◌-◌, ◌≤◌, length};
ghost use Rattle.row_judge.specs.Judge.{no_set, not_triangular, judge_reasons, judge_rows_in};

use faults::Fault;

// What is wrong with such a code, a case for each refusal: 1, 2, 3 with its place, the four reasons of 20, 21 with its place.
#[derive(Clone, Copy, PartialEq, Eq)]
pub enum RowFlaw {
    NoData,
    NoChecks,
    TooWide(usize),
    NoRows,
    Repeated,
    NotTriangular,
    EvenColumn,
    Leftover(usize),
}

// What the judge says of one.
pub type JudgedRows = Result<(), RowFlaw>;

// Check columns with a fault at either corner.
pub fn not_triangular(checks: &[u16]) -> bool
    requires { length checks.now ≤ 16 }
    ensures { result ≡ not_triangular checks.now }
{
    faults::some(checks, Fault::NotLower) && faults::some(checks, Fault::NotUpper)
}

// A set of rows that is empty, or names a row at r or above.
pub fn no_set(rows: u16, r: usize) -> bool
    requires { r ≤ 16 }
    ensures { result ≡ no_set r rows }
{
    rows == 0 || faults::too_wide(rows, r)
}

// 20, its reasons 1 to 4 over the whole code one after the other; then 21.
#[tactic(auto, using(crate::proofs::Parts::last_of, faults::proofs::Firsts::is_found, faults::proofs::Firsts::not_found), unfolding(crate::specs::Judge::judge_reasons))]
fn judge_reasons(places: &[u16], n: usize, r: usize, rows: u16) -> JudgedRows
    requires { (r ≤ 16) × (r ≤ n) × (n ≤ length places.now) }
    ensures { result ≡ judge_reasons places.now n r rows }
{
    let k = n - r;
    if no_set(rows, r) {
        return Err(RowFlaw::NoRows);
    }
    if faults::some(&places[..n], Fault::Again) {
        return Err(RowFlaw::Repeated);
    }
    if not_triangular(&places[k..n]) {
        return Err(RowFlaw::NotTriangular);
    }
    if faults::some(&places[..n], Fault::Even(rows)) {
        return Err(RowFlaw::EvenColumn);
    }
    match faults::first(places, Fault::Full, n) {
        Some(left) => Err(RowFlaw::Leftover(left)),
        None => Ok(()),
    }
}

// A code whose places are all of a slice, 16 of them beyond its most data bits: 1, 2, then 3 over all n columns, then 20 and 21.
#[tactic(auto, using(faults::proofs::Firsts::is_found, faults::proofs::Firsts::not_found), unfolding(crate::specs::Judge::judge_rows_in))]
pub fn judge_in(places: &[u16], n: usize, r: usize, rows: u16) -> JudgedRows
    requires { 16 ≤ length places.now }
    ensures { result ≡ judge_rows_in (length places.now - 16) places.now n r rows }
{
    if n <= r || n - r > places.len() - 16 {
        return Err(RowFlaw::NoData);
    }
    if r < 3 || r > 16 {
        return Err(RowFlaw::NoChecks);
    }
    match faults::first(&places[..n], Fault::Wide(r), 0) {
        Some(wide) => Err(RowFlaw::TooWide(wide)),
        None => judge_reasons(places, n, r, rows),
    }
}
