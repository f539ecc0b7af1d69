// What a pass does at one record: the verdict on it, mending, and its entry.
#![tactic(auto)]

ghost use Rattle.std.specs.Prelude.{◌≡◌, ◌≤◌, length};
ghost use Rattle.record.specs.Layout.{record_size, entry_size, entry_bytes};
ghost use Rattle.verdict.specs.Places.{NamesPlace};
ghost use Rattle.at_record.specs.Outcome.{reader, Held, Ready, word_in, sight, left_by, entry_by};

use record::{CHECK, HEAD};
use verdict::{Finding, Verdict};
use word::{Sight, Word};

// The bytes of data in the low half of a word.
const HALF: usize = 8;

// The word that a record says: its first eight bytes are the low half.
pub fn word_in(d: usize, rec: &[u8]) -> Word
    requires le_d { (8 ≤ d) × (d ≤ 16) }
    requires rec_len { length rec.now ≡ record_size d }
    ensures { result ≡ word_in d rec.now }
{
    let end = d + CHECK;
    Word {
        low: record::number(&rec[..HALF]),
        high: record::number(&rec[HALF..d]),
        check: record::check_number(&rec[d..end]),
    }
}

// Records with d bytes of data that hold k data bits.
#[derive(Clone, Copy)]
pub struct RecordForm {
    pub d: usize,
    pub k: usize,
    pub ghost held: { Held d k },
}

// What records are read with: the n columns of a code, its set of rows, and the records' form.
#[derive(Clone, Copy)]
pub struct RecordReader<'a> {
    pub columns: &'a [u16],
    pub rows: u16,
    pub form: RecordForm,
    pub ghost ready: { Ready (reader columns.now form.k rows form.d) },
}

impl<'a> RecordReader<'a> {
    ghost use Rattle.at_record.specs.Under.{under};

    // The verdict on a record and its syndrome.
    pub fn look(&self, rec: &[u8]) -> Sight
        requires { length rec.now ≡ record_size self.now.form.d }
        ensures { result ≡ sight (under self.now) rec.now }
    {
        let form = self.form;
        word_in(form.d, rec).read_in(self.columns, form.k, self.rows)
    }
}

impl RecordForm {
    // A record is left as its verdict says: for verdicts 1 and 2 the bit of the place that they name is turned.
    fn mend(self, rec: &mut [u8], verdict: Verdict)
        requires rec_len { length rec.old ≡ record_size self.d }
        requires names_place { NamesPlace self.k verdict }
        ensures { rec.new ≡ left_by self.d self.k verdict rec.old }
    {
        match verdict {
            Verdict::Data(p) => record::turn_bit(rec, p),
            Verdict::Check(p) => record::turn_bit(rec, 8 * self.d + (p - self.k)),
            _ => {}
        }
    }

    // A record's bytes as its verdict leaves them: they are copied, and the copy mended. So no copy waits for a byte that was just turned.
    fn put_left(self, part: &mut [u8], rec: &[u8], verdict: Verdict)
        requires part_len { length part.old ≡ length rec.now }
        requires rec_len { length rec.now ≡ record_size self.d }
        requires names_place { NamesPlace self.k verdict }
        ensures { part.new ≡ left_by self.d self.k verdict rec.now }
    {
        record::put_bytes(part, rec);
        self.mend(part, verdict);
    }

    // A record's entry is written, with its bytes as read and as left, and the record mended.
    pub fn enter(self, rec: &mut [u8], entry: &mut [u8], stamp: u32, n: u16, sight: Sight)
        requires rec_len { length rec.old ≡ record_size self.d }
        requires len { length entry.old ≡ entry_size self.d }
        requires names_place { NamesPlace self.k sight.verdict }
        ensures rec_after { rec.new ≡ left_by self.d self.k sight.verdict rec.old }
        ensures after { entry.new ≡ entry_bytes (entry_by self.d self.k stamp n sight.verdict sight.syndrome rec.old) }
    {
        let middle = HEAD + rec.len();
        let end = middle + rec.len();
        let verdict = sight.verdict;
        let finding = Finding::from(verdict);
        record::put_head(
            &mut entry[0..HEAD],
            stamp,
            n,
            finding.verdict as u8,
            finding.place as u8,
            sight.syndrome,
        );
        record::put_bytes(&mut entry[HEAD..middle], rec);
        self.put_left(&mut entry[middle..end], rec, verdict);
        self.mend(rec, verdict);
    }
}
