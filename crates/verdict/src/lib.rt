// The six verdicts: the verdict on a syndrome, and its number and place.
#![tactic(auto)]

ghost use Rattle.std.specs.Prelude.{◌≡◌, ◌≢◌};
ghost use Rattle.parity.specs.Odd.{odd_in};
ghost use Rattle.columns.specs.Mix.{place_in};
ghost use Rattle.verdict.specs.Verdicts.{verdict_on, finding_of};

// Document 01's verdicts 0 to 5, with the place that is flipped.
#[derive(Clone, Copy)]
pub enum Verdict {
    Clean,
    Data(usize),
    Check(usize),
    Even,
    Odd,
    Stray,
}

// The verdict on a syndrome that is not 0 and whose place is p, under the n columns of a code with k data bits and a set of rows.
#[tactic(auto, using(parity::proofs::Ones::even_test, parity::proofs::Ones::odd_test), unfolding(crate::specs::Verdicts::verdict_on))]
pub fn verdict_at(columns: &[u16], k: usize, rows: u16, s: u16, p: usize) -> Verdict
    requires s_nonzero { s ≢ 0 }
    requires p_value { p ≡ place_in columns.now s }
    ensures { result ≡ verdict_on (odd_in rows) columns.now k s }
{
    if p < k {
        return Verdict::Data(p);
    }
    if p < columns.len() {
        return Verdict::Check(p);
    }
    if parity::odd(s & rows) {
        return Verdict::Odd;
    }
    Verdict::Even
}

// The verdict on a syndrome.
#[tactic(auto, unfolding(crate::specs::Verdicts::verdict_on))]
pub fn verdict_on(columns: &[u16], k: usize, rows: u16, s: u16) -> Verdict
    ensures { result ≡ verdict_on (odd_in rows) columns.now k s }
{
    if s == 0 {
        return Verdict::Clean;
    }
    verdict_at(columns, k, rows, s, columns::place_in(columns, s))
}

// Document 01's number of a verdict, and its place, 255 for none. Numbers stay here: `desk_read` and the journal hand them out so.
#[derive(Clone, Copy)]
pub struct Finding {
    pub verdict: usize,
    pub place: usize,
}

impl From<Verdict> for Finding {
    ghost from_gives = { λ v f. f ≡ finding_of v };

    fn from(verdict: Verdict) -> Finding {
        let (verdict, place) = match verdict {
            Verdict::Clean => (0, 255),
            Verdict::Data(p) => (1, p),
            Verdict::Check(p) => (2, p),
            Verdict::Even => (3, 255),
            Verdict::Odd => (4, 255),
            Verdict::Stray => (5, 255),
        };
        Finding { verdict, place }
    }
}
