// A run of records that is lent alone: the entries that it needs, and the pass over its records.
// Both loops count: a record's number and its place go by the index, and a part of the run is as plain as a chunk.
#![tactic(auto)]

ghost use Rattle.std.specs.Prelude.{◌≡◌};
ghost use Rattle.record.specs.Layout.{in_bytes};
ghost use Rattle.record.specs.Run.{over};
ghost use Rattle.at_record.specs.Under.{under};
ghost use Rattle.over_run.specs.Whole.{needed_by, tally_in, left_in, entries_by, RunFits};

use at_record::RecordReader;
use record::{CHECK, HEAD, Tally};
use verdict::Finding;

// How many entries a run needs.
pub fn needed(reader: RecordReader, run: &[u8]) -> usize
    ensures { result ≡ needed_by (under reader.entry) run.now }
{
    let size = reader.form.d + CHECK;
    let n = run.len() / size;
    let mut count: usize = 0;
    for i in 0..n {
        let at = i * size;
        let end = at + size;
        let sight = reader.look(&run[at..end]);
        let finding = Finding::from(sight.verdict);
        if finding.verdict != 0 {
            count += 1;
        }
    }
    count
}

// A pass with a stamp over all records of a run, the first of which has the number `first`.
pub fn pass_run(
    reader: RecordReader,
    run: &mut [u8],
    first: usize,
    journal: &mut [u8],
    stamp: u32,
) -> Tally
    requires { RunFits (under reader) run.old first journal.old }
    ensures value { result ≡ tally_in (under reader.entry) run.old }
    ensures run_after { run.new ≡ left_in (under reader.entry) run.old }
    ensures journal_after { journal.new ≡ over (in_bytes (entries_by (under reader.entry) stamp first run.old)) journal.old }
{
    let size = reader.form.d + CHECK;
    let step = HEAD + 2 * size;
    let n = run.len() / size;
    let mut tally = Tally::default();
    let mut used: usize = 0;
    for i in 0..n {
        let at = i * size;
        let end = at + size;
        let number = (first + i) as u16;
        let sight = reader.look(&run[at..end]);
        let finding = Finding::from(sight.verdict);
        let found = finding.verdict as u8;
        tally = tally.counted(found);
        if found != 0 {
            let to = used + step;
            let form = reader.form;
            form.enter(
                &mut run[at..end],
                &mut journal[used..to],
                stamp,
                number,
                sight,
            );
            used = to;
        }
    }
    tally
}
