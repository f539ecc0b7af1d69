// The judge of a code of Hsiao's family, in any number of places.
#![tactic(auto)]

ghost use Rattle.std.specs.Prelude.{◌≡◌, ◌≤◌, ◌<◌, length};
ghost use Rattle.judge.specs.Judge.{judge_column, judge_columns, judge_rest, judge_in};

// What is wrong with a code of Hsiao's family, a case for each refusal 1 to 6 and 21, with the bad place.
#[derive(Clone, Copy, PartialEq, Eq)]
pub enum Flaw {
    NoData,
    NoChecks,
    TooWide(usize),
    EvenColumn(usize),
    SingleOne(usize),
    Repeated(usize),
    Leftover(usize),
}

// What the judge says of a code.
pub type Judged = Result<(), Flaw>;

// One column: too wide, even, a single one, or equal to an earlier one, in that order.
#[tactic(auto, using(columns::proofs::Words::shl_one), unfolding(crate::specs::Judge::judge_column))]
fn judge_column(columns: &[u16], r: usize, i: usize) -> Judged
    requires { (r ≤ 16) × (i < length columns.now) }
    ensures { result ≡ judge_column columns.now r i }
{
    let column = columns[i];
    let limit: u32 = 1u32 << r;
    if column as u32 >= limit {
        return Err(Flaw::TooWide(i));
    }
    if !parity::odd(column) {
        return Err(Flaw::EvenColumn(i));
    }
    if parity::weight(column) == 1 {
        return Err(Flaw::SingleOne(i));
    }
    if columns::place_in(columns, column) < i {
        return Err(Flaw::Repeated(i));
    }
    Ok(())
}

// The lowest bad column decides. By `let .. else` and not by `?`: document 01 names that form for a refused code, here and where it is opened.
#[tactic(auto, using(crate::proofs::Steps::from_step, crate::proofs::Steps::from_end), unfolding(crate::specs::Judge::judge_columns))]
fn judge_columns(columns: &[u16], r: usize) -> Judged
    requires { r ≤ 16 }
    ensures { result ≡ judge_columns columns.now r }
{
    for i in 0..columns.len() {
        let verdict = judge_column(columns, r, i);
        let Ok(()) = verdict else {
            return verdict;
        };
    }
    Ok(())
}

// The first place from k on that is not 0 is left over.
#[tactic(auto, using(crate::proofs::Steps::rest_step, crate::proofs::Steps::rest_left, crate::proofs::Steps::rest_end), unfolding(crate::specs::Judge::judge_rest))]
pub fn judge_rest(places: &[u16], k: usize) -> Judged
    ensures { result ≡ judge_rest places.now k }
{
    for i in k..places.len() {
        if places[i] != 0 {
            return Err(Flaw::Leftover(i));
        }
    }
    Ok(())
}

// A code whose places are all of a slice: the limits first, then the columns below k, then the places past k.
#[tactic(auto, unfolding(crate::specs::Judge::judge_in))]
pub fn judge_in(places: &[u16], k: usize, r: usize) -> Judged
    ensures { result ≡ judge_in (length places.now) places.now k r }
{
    if k == 0 || k > places.len() {
        return Err(Flaw::NoData);
    }
    if r < 3 || r > 16 {
        return Err(Flaw::NoChecks);
    }
    judge_columns(&places[..k], r)?;
    judge_rest(places, k)
}
