// A listed record is entered and mended: what at_record's `enter` does, without a loop.
#![tactic(auto)]

ghost use Rattle.std.specs.Prelude.{◌≡◌, ◌+◌, ◌*◌, ◌/◌, ◌%◌, ◌^◌, ◌≤◌, ◌<◌, length};
ghost use Rattle.record.specs.Bytes.{Put};
ghost use Rattle.record.specs.Layout.{record_size, entry_size, entry_bytes};
ghost use Rattle.at_record.specs.Outcome.{left_by, entry_by};
ghost use Rattle.verdict.specs.Places.{NamesPlace};
ghost use Rattle.entering.specs.Turns.{turned_at, Leaves};

use at_record::RecordForm;
use record::{CHECK, HEAD};
use verdict::{Finding, Verdict};
use word::Sight;

// Up to eight bytes go at once, as the number that they say.
const HALF: usize = 8;

// The bytes from `from` up to `to`, no more than eight, are written; those before them stand already. Not by `copy_from_slice`: it asks each
// time whether the bytes overlap, and an image of damaged records takes a sixth longer.
fn put_span(part: &mut [u8], rec: &[u8], from: usize, to: usize)
    requires part_len { length part.old ≡ length rec.now }
    requires from_le_to { (from ≤ to) × (to ≤ from + 8) × (to ≤ length rec.now) }
    requires put { Put from part.old rec.now }
    ensures { Put to part.new rec.now }
{
    record::put_number(&mut part[from..to], record::number(&rec[from..to]));
}

// A record's bytes, without a loop in either edition: the first eight of its data, the last eight, its check bits.
fn put_record(part: &mut [u8], rec: &[u8], d: usize)
    requires part_len { length part.old ≡ length rec.now }
    requires rec_len { length rec.now ≡ record_size d }
    requires le_d { (8 ≤ d) × (d ≤ 16) }
    ensures { part.new ≡ rec.now }
{
    let from = d - HALF;
    let end = d + CHECK;
    put_span(part, rec, 0, HALF);
    put_span(part, rec, from, d);
    put_span(part, rec, d, end);
}

// The bits that a verdict turns, all of one byte.
#[derive(Clone, Copy)]
struct Turn {
    at: usize,
    bits: u8,
}

// Place p of a record's bits.
fn turn_at(p: usize) -> Turn
    ensures { (result.at ≡ p / 8) × (result.bits ≡ 2 ^ (p % 8)) }
{
    let bits = 1u8 << (p % 8);
    Turn { at: p / 8, bits }
}

// What a verdict turns: chosen before anything is written, so that both writes have it at hand.
fn turn_of(form: RecordForm, verdict: Verdict) -> Turn
    requires { NamesPlace form.k verdict }
    ensures { Leaves form.d form.k verdict result.at result.bits }
{
    match verdict {
        Verdict::Data(p) => turn_at(p),
        Verdict::Check(p) => turn_at(8 * form.d + (p - form.k)),
        _ => Turn { at: 0, bits: 0 },
    }
}

fn turn_byte(bytes: &mut [u8], turn: Turn)
    requires { turn.at < length bytes.old }
    ensures { bytes.new ≡ turned_at turn.at turn.bits bytes.old }
{
    bytes[turn.at] ^= turn.bits;
}

// A record's bytes as its verdict leaves them.
fn put_left(part: &mut [u8], rec: &[u8], d: usize, turn: Turn)
    requires part_len { length part.old ≡ length rec.now }
    requires rec_len { length rec.now ≡ record_size d }
    requires le_d { (8 ≤ d) × (d ≤ 16) }
    requires at_bound { turn.at < record_size d }
    ensures { part.new ≡ turned_at turn.at turn.bits rec.now }
{
    put_record(part, rec, d);
    turn_byte(part, turn);
}

// The contract of at_record's `enter`, word for word, for speed: the record is copied without a loop, and the second walk alone calls this,
// so that it becomes a part of its loop. One function over both ways would take a trait with more members than this has lines.
pub fn enter(form: RecordForm, rec: &mut [u8], entry: &mut [u8], stamp: u32, n: u16, sight: Sight)
    requires rec_len { length rec.old ≡ record_size form.d }
    requires len { length entry.old ≡ entry_size form.d }
    requires names_place { NamesPlace form.k sight.verdict }
    ensures rec_after { rec.new ≡ left_by form.d form.k sight.verdict rec.old }
    ensures after { entry.new ≡ entry_bytes (entry_by form.d form.k stamp n sight.verdict sight.syndrome rec.old) }
{
    let middle = HEAD + rec.len();
    let end = middle + rec.len();
    let verdict = sight.verdict;
    let turn = turn_of(form, verdict);
    let finding = Finding::from(verdict);
    record::put_head(
        &mut entry[0..HEAD],
        stamp,
        n,
        finding.verdict as u8,
        finding.place as u8,
        sight.syndrome,
    );
    put_record(&mut entry[HEAD..middle], rec, form.d);
    put_left(&mut entry[middle..end], rec, form.d, turn);
    turn_byte(rec, turn);
}
