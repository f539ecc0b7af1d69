// The second walk of the quick pass: the records that the list names are mended and entered.
#![tactic(auto)]

ghost use Rattle.std.specs.Prelude.{◌≡◌, length};
ghost use Rattle.record.specs.Layout.{record_size, in_bytes};
ghost use Rattle.record.specs.Run.{over};
ghost use Rattle.at_record.specs.Outcome.{sight};
ghost use Rattle.at_record.specs.Under.{under};
ghost use Rattle.over_run.specs.Whole.{tally_in, left_in, entries_by};
ghost use Rattle.parity.specs.Odd.{odd_in};
ghost use Rattle.verdict.specs.Verdicts.{verdict_on};
ghost use Rattle.guess.specs.Guess.{Guessed};
ghost use Rattle.by_list.specs.Given.{mixed_of, Given};

use at_record::RecordReader;
use record::{CHECK, HEAD, Tally};
use verdict::{Finding, Verdict};
use word::Sight;

// The verdict on a syndrome, its place by a guess.
fn verdict_by(reader: RecordReader, guesses: &[u8], s: u16) -> Verdict
    requires { Guessed reader.columns.now guesses.now }
    ensures { result ≡ verdict_on (odd_in reader.entry.rows) reader.entry.columns.now reader.entry.form.k s }
{
    if s == 0 {
        return Verdict::Clean;
    }
    let columns = reader.columns;
    let place = guess::place(columns, guesses, s);
    verdict::verdict_at(columns, reader.form.k, reader.rows, s, place)
}

// The verdict on a record and its syndrome, where what its columns mix to is known.
fn sight_by(reader: RecordReader, guesses: &[u8], s: u16, rec: &[u8]) -> Sight
    requires guessed { Guessed reader.columns.now guesses.now }
    requires rec_len { length rec.now ≡ record_size reader.form.d }
    requires s_value { s ≡ mixed_of (under reader) rec.now }
    ensures { result ≡ sight (under reader.entry) rec.now }
{
    let word = at_record::word_in(reader.form.d, rec);
    if word.stray_in(reader.columns.len(), reader.form.k) {
        return Sight {
            verdict: Verdict::Stray,
            syndrome: 0,
        };
    }
    Sight {
        verdict: verdict_by(reader, guesses, s),
        syndrome: s,
    }
}

// The listed records of a run, the first of which has the number `first`: all others are clean, and stay.
pub fn mended(
    reader: RecordReader,
    guesses: &[u8],
    list: &[u32],
    run: &mut [u8],
    first: usize,
    journal: &mut [u8],
    stamp: u32,
) -> Tally
    requires { Given (under reader) guesses.now list.now (length list.now) run.old first journal.old }
    ensures value { result ≡ tally_in (under reader.entry) run.old }
    ensures run_after { run.new ≡ left_in (under reader.entry) run.old }
    ensures journal_after { journal.new ≡ over (in_bytes (entries_by (under reader.entry) stamp first run.old)) journal.old }
{
    let form = reader.form;
    let size = form.d + CHECK;
    let step = HEAD + 2 * size;
    let mut tally = Tally::default();
    tally.clean = (run.len() / size - list.len()) as u16;
    let mut used: usize = 0;
    for both in list {
        let x = (*both % 65536) as usize;
        let s = (*both / 65536) as u16;
        let at = x * size;
        let end = at + size;
        let to = used + step;
        let number = (first + x) as u16;
        let sight = sight_by(reader, guesses, s, &run[at..end]);
        let finding = Finding::from(sight.verdict);
        entering::enter(
            form,
            &mut run[at..end],
            &mut journal[used..to],
            stamp,
            number,
            sight,
        );
        // Counted here: before the record is entered this compiles to a second branch.
        tally = tally.counted(finding.verdict as u8);
        used = to;
    }
    tally
}
