// The text of the program: an entry's line, the tally's line, a refusal.
#![tactic(auto)]

ghost use Rattle.std.specs.Prelude.{◌≡◌, ◌+◌, ◌*◌, ◌/◌, ◌≤◌, length};
ghost use Rattle.record.specs.Layout.{data_size, entry_size};
ghost use Rattle.record.specs.Run.{over};
ghost use Rattle.report.specs.Text.{decimal_of, filled, holes_in, line_of, journal_text, line_size, tally_text, refused_text, written, Held};
ghost use Rattle.report.specs.Totals.{added_to, total_limit, Within};

use record::{ENTRY, HEAD, PLACE, STAMP, SYNDROME, Tally, VERDICT};

// The most bytes of an entry's line, of the tally's line and of a refusal.
pub const LINE: usize = 20;

pub const TALLY_LINE: usize = 158;

pub const REFUSAL: usize = 29;

// Where a number goes in a text.
const HOLE: u8 = b'#';

// ---- no heap: each writes its text into a lent buffer, from the place `at` on, and answers the place after it

// A number in decimal: the digits before the last, then the last. By the kit's itoa the lines of a journal take twice as long.
fn put_decimal(out: &mut [u8], at: usize, n: usize) -> usize
    requires { at + length (decimal_of n) ≤ length out.old }
    ensures value { result ≡ at + length (decimal_of n) }
    ensures out_after { out.new ≡ written at (decimal_of n) out.old }
{
    if n < 10 {
        out[at] = b'0' + n as u8;
        return at + 1;
    }
    let last = put_decimal(out, at, n / 10);
    out[last] = b'0' + (n % 10) as u8;
    last + 1
}

// A text, with the numbers in the places of its holes. By write!, a failure would have to be ruled out for each text, on top of its room.
fn put_filled(out: &mut [u8], mut at: usize, text: &[u8], numbers: &[usize]) -> usize
    requires text_value { holes_in text.now ≡ length numbers.now }
    requires numbers_in_bounds { at + length (filled text.now numbers.now) ≤ length out.old }
    ensures value { result ≡ at + length (filled text.now numbers.now) }
    ensures out_after { out.new ≡ written at (filled text.now numbers.now) out.old }
{
    let mut k = 0;
    for c in text {
        if *c == HOLE {
            at = put_decimal(out, at, numbers[k]);
            k += 1;
        } else {
            out[at] = *c;
            at += 1;
        }
    }
    at
}

// The line of an entry's bytes.
fn put_entry_line(out: &mut [u8], at: usize, entry: &[u8]) -> usize
    requires len { length entry.now ≡ entry_size data_size }
    requires line_size_in_bounds { at + line_size ≤ length out.old }
    ensures value { result ≡ at + length (line_of entry.now) }
    ensures out_after { out.new ≡ written at (line_of entry.now) out.old }
{
    let n = record::number(&entry[STAMP..VERDICT]) as usize;
    let verdict = entry[VERDICT] as usize;
    let place = entry[PLACE] as usize;
    let syndrome = record::number(&entry[SYNDROME..HEAD]) as usize;
    put_filled(out, at, b"# # # #\n", &[n, verdict, place, syndrome])
}

// The lines of a journal's entries, from the first byte on; answers how many bytes.
pub fn journal_text(journal: &[u8], out: &mut [u8]) -> usize
    requires { line_size * (length journal.now / entry_size data_size) ≤ length out.old }
    ensures value { result ≡ length (journal_text journal.now) }
    ensures out_after { out.new ≡ over (journal_text journal.now) out.old }
    ensures held { Held result out.new }
{
    let mut at = 0;
    for entry in journal.chunks_exact(ENTRY) {
        at = put_entry_line(out, at, entry);
    }
    at
}

// The counts of several runs, added up.
#[derive(Clone, Copy, Default)]
pub struct Totals {
    pub clean: usize,
    pub data: usize,
    pub check: usize,
    pub even: usize,
    pub odd: usize,
    pub stray: usize,
}

impl Totals {
    // A run's tally is added.
    pub fn added(self, run: Tally) -> Self
        requires { Within total_limit self }
        ensures { result ≡ added_to self run }
    {
        Self {
            clean: self.clean + usize::from(run.clean),
            data: self.data + usize::from(run.data),
            check: self.check + usize::from(run.check),
            even: self.even + usize::from(run.even),
            odd: self.odd + usize::from(run.odd),
            stray: self.stray + usize::from(run.stray),
        }
    }
}

// The tally's line, from the first byte on; answers how many bytes.
pub fn tally_text(totals: Totals, out: &mut [u8; TALLY_LINE]) -> usize
    ensures value { result ≡ length (tally_text totals) }
    ensures out_after { out.new ≡ over (tally_text totals) out.old }
    ensures held { Held result out.new }
{
    let counts = [
        totals.clean,
        totals.data,
        totals.check,
        totals.even,
        totals.odd,
        totals.stray,
    ];
    put_filled(
        out,
        0,
        b"clean # data # check # even # odd # stray #\n",
        &counts,
    )
}

// The line of a refusal, likewise.
pub fn refused_text(number: usize, out: &mut [u8; REFUSAL]) -> usize
    ensures value { result ≡ length (refused_text number) }
    ensures out_after { out.new ≡ over (refused_text number) out.old }
    ensures held { Held result out.new }
{
    put_filled(out, 0, b"refused #\n", &[number])
}
