// The judges of both families once more, quick to accept: where each column finds itself at its guessed place, no two are equal. Where
// anything is amiss the plain judge speaks, so that a refusal is its own.
#![tactic(auto)]

ghost use Rattle.std.specs.Prelude.{◌≡◌, ◌-◌, ◌≤◌, ◌<◌, length};
ghost use Rattle.guess.specs.Guess.{Guessed};
ghost use Rattle.judge.specs.Judge.{judge_in};
ghost use Rattle.row_judge.specs.Judge.{judge_rows_in};
ghost use Rattle.quick_judge.specs.Quick.{in_limits, fine_column, settled_at, all_settled, shaped_rows};

use guess::{NONE, SLOTS};
use judge::Judged;
use row_judge::JudgedRows;

fn in_limits(most: usize, k: usize, r: usize) -> bool
    ensures { result ≡ in_limits most k r }
{
    k != 0 && k <= most && 3 <= r && r <= 16
}

// What each column is asked: to lie below 2^r, to be odd within the rows, and to be no single one unless these may stand.
#[derive(Clone, Copy)]
struct Asked {
    r: usize,
    rows: u16,
    singles: bool,
    ghost in_reach: { r ≤ 16 },
}

impl Asked {
    // A column by itself.
    fn fine(self, c: u16) -> bool
        ensures { result ≡ fine_column self.r self.rows self.singles c }
    {
        !faults::too_wide(c, self.r)
            && parity::odd(c & self.rows)
            && (self.singles || parity::weight(c) != 1)
    }

    // The column at i is fine, and no earlier one equals it.
    fn settled(self, columns: &[u16], guesses: &[u8], i: usize) -> bool
        requires i_in_bounds { i < length columns.now }
        requires guessed { Guessed columns.now guesses.now }
        ensures { result ≡ settled_at columns.now self.r self.rows self.singles i }
    {
        guess::own_place(columns, guesses, i) >= i && self.fine(columns[i])
    }

    // So for all columns.
    fn all_settled(self, columns: &[u16], guesses: &[u8]) -> bool
        requires { Guessed columns.now guesses.now }
        ensures { result ≡ all_settled columns.now self.r self.rows self.singles }
    {
        let mut ok = true;
        for i in 0..columns.len() {
            ok &= self.settled(columns, guesses, i);
        }
        ok
    }

    // The table of guesses, and the columns by it.
    fn all_found(self, columns: &[u16]) -> bool
        ensures { result ≡ all_settled columns.now self.r self.rows self.singles }
    {
        let mut guesses = [NONE; SLOTS];
        guess::fill_guesses(&mut guesses, columns);
        self.all_settled(columns, &guesses)
    }
}

// A code of Hsiao's family, as `judge::judge_in` judges it.
#[tactic(auto, using(crate::proofs::Accepts::limits_of, crate::proofs::Accepts::is_accepted, crate::proofs::Accepts::hsiao_accepted))]
pub fn judge_in(places: &[u16], k: usize, r: usize) -> Judged
    ensures { result ≡ judge_in (length places.now) places.now k r }
{
    if in_limits(places.len(), k, r) {
        let asked = Asked {
            r,
            rows: u16::MAX,
            singles: false,
        };
        if asked.all_found(&places[..k]) && judge::judge_rest(places, k).is_ok() {
            return Ok(());
        }
    }
    judge::judge_in(places, k, r)
}

// What a code with a chosen set of rows is asked beside its columns: a set, and check columns with an empty corner.
#[tactic(auto, using(row_judge::proofs::Parts::last_of))]
fn shaped(places: &[u16], n: usize, r: usize, rows: u16) -> bool
    requires { (r ≤ 16) × (r ≤ n) × (n ≤ length places.now) }
    ensures { result ≡ shaped_rows places.now n r rows }
{
    !row_judge::no_set(rows, r) && !row_judge::not_triangular(&places[n - r..n])
}

// A code with a chosen set of rows, as `row_judge::judge_in` judges it.
#[tactic(auto, using(crate::proofs::Accepts::limits_of, crate::proofs::Accepts::is_accepted, crate::proofs::Accepts::rows_accepted))]
pub fn judge_rows_in(places: &[u16], n: usize, r: usize, rows: u16) -> JudgedRows
    requires { 16 ≤ length places.now }
    ensures { result ≡ judge_rows_in (length places.now - 16) places.now n r rows }
{
    if n > r && in_limits(places.len() - 16, n - r, r) {
        let asked = Asked {
            r,
            rows,
            singles: true,
        };
        if asked.all_found(&places[..n])
            && shaped(places, n, r, rows)
            && judge::judge_rest(places, n).is_ok()
        {
            return Ok(());
        }
    }
    row_judge::judge_in(places, n, r, rows)
}
