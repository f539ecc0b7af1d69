// The first walk of the quick pass: which records are not clean, with what the tables say of them.
#![tactic(auto)]

ghost use Rattle.std.specs.Prelude.{◌≡◌, ◌+◌, ◌-◌, ◌≤◌, ◌<◌, length};
ghost use Rattle.record.specs.Layout.{record_size, records_in};
ghost use Rattle.record.specs.Journal.{needed_of};
ghost use Rattle.tables.specs.Tables.{lookups};
ghost use Rattle.marks.specs.Marks.{above, stray_bits, mark_by, mark_of, said_of, Tabled, Listed};

use record::{CHECK, DATA, WIDE_DATA};
use word::Word;

// The bits from k on, of 64.
fn above(k: usize) -> u64
    ensures { result ≡ above 64 k }
{
    if k >= 64 {
        return 0;
    }
    let bit = 1u64 << k;
    u64::MAX - bit + 1
}

// The bits that are stray in a word of n places, k of them data.
pub fn stray_bits(n: usize, k: usize) -> Word
    requires { (k ≤ n) × (n ≤ k + 16) }
    ensures { result ≡ stray_bits n k }
{
    Word {
        low: above(k),
        high: above(k.saturating_sub(64)),
        check: (above(n - k) % 65536) as u16,
    }
}

// 0 for a word whose syndrome is 0 and that has no stray bit. A number and no bool: the walk has no branch before it is complete.
fn mark(s: u16, word: Word, strays: Word) -> u64
    ensures { result ≡ mark_by s word strays }
{
    s as u64 | word.low & strays.low | word.high & strays.high | (word.check & strays.check) as u64
}

// What is seen of the record x: its mark, and what the list says of it.
#[derive(Clone, Copy)]
struct Seen {
    mark: u64,
    said: u32,
}

// By the parts of a looker and not by the struct, as in `listed`: the compiler does not see constants in one that is handed on, and the inner
// loops that stay take 1.3 to 1.9 times as long.
fn look_at(table: &[u16], halves: bool, d: usize, strays: Word, rec: &[u8], x: usize) -> Seen
    requires tabled { Tabled halves d table.now }
    requires rec_len { length rec.now ≡ record_size d }
    requires x_bound { x < 65536 }
    ensures mark_value { result.mark ≡ mark_of halves table.now d strays rec.now }
    ensures said_value { result.said ≡ said_of (lookups halves table.now rec.now (record_size d)) x }
{
    let s = tables::looks(table, rec, halves);
    let word = at_record::word_in(d, rec);
    let said = 65536 * s as u32 + x as u32;
    Seen {
        mark: mark(s, word, strays),
        said,
    }
}

// The list of the records that are not clean, and how many they are. What is written of a clean one is not counted.
fn listed(
    list: &mut [u32],
    table: &[u16],
    halves: bool,
    d: usize,
    strays: Word,
    run: &[u8],
) -> usize
    requires tabled { Tabled halves d table.now }
    requires run_bound { records_in d run.now ≤ 65536 }
    requires run_in_bounds { records_in d run.now ≤ length list.old }
    ensures value { result
        ≡ needed_of (record_size d) (mark_of halves table.now d strays) run.now (records_in d run.now) }
    ensures listed { Listed halves d table.now strays run.now (records_in d run.now) list.new result }
{
    let size = d + CHECK;
    let n = run.len() / size;
    let mut bad: usize = 0;
    for x in 0..n {
        let at = x * size;
        let end = at + size;
        let seen = look_at(table, halves, d, strays, &run[at..end], x);
        list[bad] = seen.said;
        if seen.mark != 0 {
            bad += 1;
        }
    }
    bad
}

// What looks at records with d bytes of data: their tables, by halves or whole, and the bits that are stray in a word.
#[derive(Clone, Copy)]
pub struct Looker<'a> {
    pub table: &'a [u16],
    pub halves: bool,
    pub d: usize,
    pub strays: Word,
    pub ghost tabled: { Tabled halves d table.now },
}

impl<'a> Looker<'a> {
    // The same: the sizes of both editions and the kinds of tables are named, so that the compiler can do without inner loops.
    pub fn listed_by(self, list: &mut [u32], run: &[u8]) -> usize
        requires run_bound { records_in self.d run.now ≤ 65536 }
        requires run_in_bounds { records_in self.d run.now ≤ length list.old }
        ensures value { let l = self.entry in result
            ≡ needed_of (record_size l.d) (mark_of l.halves l.table.now l.d l.strays) run.now (records_in l.d run.now) }
        ensures listed { let l = self.entry in Listed l.halves l.d l.table.now l.strays run.now (records_in l.d run.now) list.new result }
    {
        let Looker {
            table,
            halves,
            d,
            strays,
        } = self;
        match (d, halves) {
            (DATA, true) => listed(list, table, true, DATA, strays, run),
            (DATA, false) => listed(list, table, false, DATA, strays, run),
            (WIDE_DATA, true) => listed(list, table, true, WIDE_DATA, strays, run),
            (WIDE_DATA, false) => listed(list, table, false, WIDE_DATA, strays, run),
            _ => listed(list, table, halves, d, strays, run),
        }
    }
}
