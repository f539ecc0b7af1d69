// The quick pass: the plain one's answers, by tables, a list of the records that are not clean, and guessed places.
#![tactic(auto)]

ghost use Rattle.std.specs.Prelude.{◌≡◌, ◌*◌, ◌-◌, ◌≤◌, length};
ghost use Rattle.record.specs.Layout.{record_size, in_bytes};
ghost use Rattle.record.specs.Run.{over};
ghost use Rattle.code.specs.Opened.{Laid};
ghost use Rattle.at_record.specs.Outcome.{Held};
ghost use Rattle.at_record.specs.Under.{under};
ghost use Rattle.over_run.specs.Whole.{needed_by, tally_in, left_in, entries_by};
ghost use Rattle.asked.specs.Pass.{state_of, wrong_in};
ghost use Rattle.pass.specs.Pass.{answered, pass_in, after_pass};
ghost use Rattle.tables.specs.Tables.{values_in};
ghost use Rattle.quick.specs.Walks.{FirstFits, Found, Listing, ListedIn};

use asked::Pass;
use at_record::RecordReader;
use code::{Opened, Refusal};
use guess::{NONE, SLOTS};
use marks::Looker;
use pass::{PassAnswer, Walks};
use record::{CHECK, DATA, Tally};

// The tables of records of 10 bytes and of the longest ones, whole bytes or by their halves.
const WHOLE: usize = 2560;

const HALVES: usize = 320;

const LONG_WHOLE: usize = 4608;

const LONG_HALVES: usize = 576;

// The records of a brief run, which are looked at by halves before the tables of whole bytes are filled; of a short one, and of the longest.
const BRIEF: usize = 48;

const SHORT: usize = 1024;

const LONG: usize = 6553;

// The first walk, by tables of one kind that are filled into what is lent: the records that are not clean are listed, and counted.
fn walk_by(
    table: &mut [u16],
    halves: bool,
    reader: RecordReader,
    list: &mut [u32],
    run: &[u8],
) -> usize
    requires first_fits { FirstFits (under reader) run.now list.old }
    requires room { values_in halves * record_size reader.form.d ≤ length table.old }
    ensures value { result ≡ needed_by (under reader.entry) run.now }
    ensures listed_in { ListedIn (under reader.entry) run.now list.new result }
{
    let columns = reader.columns;
    let form = reader.form;
    let top = tables::values(halves) * (form.d + CHECK);
    let filled = &mut table[..top];
    tables::fill_record(filled, columns, form.k, form.d, halves);
    let looker = Looker {
        table: filled,
        halves,
        d: form.d,
        strays: marks::stray_bits(columns.len(), form.k),
    };
    looker.listed_by(list, run)
}

// The same with a table of N places.
fn walk_with<const N: usize>(
    halves: bool,
    reader: RecordReader,
    list: &mut [u32],
    run: &[u8],
) -> usize
    requires first_fits { FirstFits (under reader) run.now list.old }
    requires room { values_in halves * record_size reader.form.d ≤ N }
    requires size { N ≤ LONG_WHOLE }
    ensures value { result ≡ needed_by (under reader.entry) run.now }
    ensures listed_in { ListedIn (under reader.entry) run.now list.new result }
{
    let mut table = [0u16; N];
    walk_by(&mut table, halves, reader, list, run)
}

// The same by the tables that are quicker for so many records.
fn first_walk(reader: RecordReader, list: &mut [u32], run: &[u8]) -> usize
    requires { FirstFits (under reader) run.now list.old }
    ensures value { result ≡ needed_by (under reader.entry) run.now }
    ensures listed_in { ListedIn (under reader.entry) run.now list.new result }
{
    let d = reader.form.d;
    let brief = run.len() <= BRIEF * (d + CHECK);
    match (d == DATA, brief) {
        (true, true) => walk_with::<HALVES>(true, reader, list, run),
        (true, false) => walk_with::<WHOLE>(false, reader, list, run),
        (false, true) => walk_with::<LONG_HALVES>(true, reader, list, run),
        (false, false) => walk_with::<LONG_WHOLE>(false, reader, list, run),
    }
}

// The second walk: the listed records are mended and entered.
fn second_walk(
    reader: RecordReader,
    list: &[u32],
    run: &mut [u8],
    first: usize,
    journal: &mut [u8],
    stamp: u32,
) -> Tally
    requires { Listing (under reader) list.now (length list.now) run.old first journal.old }
    ensures value { result ≡ tally_in (under reader.entry) run.old }
    ensures run_after { run.new ≡ left_in (under reader.entry) run.old }
    ensures journal_after { journal.new ≡ over (in_bytes (entries_by (under reader.entry) stamp first run.old)) journal.old }
{
    let mut guesses = [NONE; SLOTS];
    guess::fill_guesses(&mut guesses, reader.columns);
    by_list::mended(reader, &guesses, list, run, first, journal, stamp)
}

// What the first walk lists of a run of no more than N records, and how many these are.
#[derive(Drop)]
struct Finds<const N: usize> {
    list: [u32; N],
    bad: usize,
}

impl<const N: usize> Walks for Finds<N> {
    ghost has_room = { λ finds n. n ≤ length finds.list };

    ghost walked = { λ finds f run. Found f finds.list finds.bad run };

    fn needed(&mut self, reader: RecordReader, run: &[u8]) -> usize {
        self.bad = first_walk(reader, &mut self.list, run);
        self.bad
    }

    fn pass_run(
        &self,
        reader: RecordReader,
        run: &mut [u8],
        first: usize,
        journal: &mut [u8],
        stamp: u32,
    ) -> Tally {
        second_walk(reader, &self.list[..self.bad], run, first, journal, stamp)
    }
}

// Both walks with a list of N: it is written with zeros first, so that a longer one takes longer.
fn with_list<const N: usize>(
    reader: RecordReader,
    over: Pass,
    image: &mut [u8],
    journal: &mut [u8],
    used: usize,
) -> Result<PassAnswer, Refusal>
    requires right { wrong_in reader.form.d over (state_of image.old journal.old used) ≡ 0 }
    requires room { over.end - over.start ≤ N }
    requires size { N ≤ LONG }
    ensures value { answered result ≡ (pass_in (under reader.entry) over (state_of image.old journal.old used)).answer }
    ensures image_after { image.new ≡ (pass_in (under reader.entry) over (state_of image.old journal.old used)).image }
    ensures journal_after { journal.new ≡ (pass_in (under reader.entry) over (state_of image.old journal.old used)).journal }
{
    let mut finds = Finds::<N> {
        list: [0; N],
        bad: 0,
    };
    pass::both_walks(&mut finds, reader, over, image, journal, used)
}

// A pass with a list for as many records as it may have.
fn pass_under(
    opened: &Opened,
    d: usize,
    over: Pass,
    image: &mut [u8],
    journal: &mut [u8],
    used: usize,
) -> Result<PassAnswer, Refusal>
    requires laid { Laid opened.now }
    requires held { Held d opened.now.k }
    ensures value { answered result ≡ (after_pass opened.now d over (state_of image.old journal.old used)).answer }
    ensures image_after { image.new ≡ (after_pass opened.now d over (state_of image.old journal.old used)).image }
    ensures journal_after { journal.new ≡ (after_pass opened.now d over (state_of image.old journal.old used)).journal }
{
    let reader = pass::reader_for(opened, d, over, image, journal, used)?;
    let records = over.end - over.start;
    if records <= BRIEF {
        return with_list::<BRIEF>(reader, over, image, journal, used);
    }
    if records <= SHORT {
        return with_list::<SHORT>(reader, over, image, journal, used);
    }
    with_list::<LONG>(reader, over, image, journal, used)
}

// The plain pass's contract, word for word.
pub fn pass(
    opened: Opened,
    d: usize,
    over: Pass,
    image: &mut [u8],
    journal: &mut [u8],
    used: usize,
) -> PassAnswer
    requires laid { Laid opened }
    requires held { Held d opened.k }
    ensures value { result ≡ (after_pass opened d over (state_of image.old journal.old used)).answer }
    ensures image_after { image.new ≡ (after_pass opened d over (state_of image.old journal.old used)).image }
    ensures journal_after { journal.new ≡ (after_pass opened d over (state_of image.old journal.old used)).journal }
{
    pass_under(&opened, d, over, image, journal, used).unwrap_or_else(PassAnswer::from)
}
