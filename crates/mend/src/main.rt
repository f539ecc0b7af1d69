// The program: reads an image on standard input, passes over it with the sample code, run by run, and prints entries and tally.
#![tactic(auto)]

ghost use Rattle.std.specs.Prelude.{◌≡◌, ◌+◌, ◌*◌, ◌≤◌, ◌<◌, length};
ghost use Rattle.record.specs.Layout.{data_size, image_limit, records_in};
ghost use Rattle.record.specs.Run.{over};
ghost use Rattle.code.specs.Sample.{sample_code};
ghost use Rattle.asked.specs.Pass.{room_in};
ghost use Rattle.asked.specs.Asked.{Image};
ghost use Rattle.report.specs.Text.{line_size};
ghost use Rattle.mend.specs.Mend.{run_tally, run_left, run_text, run_size, Ready, as_totals};

use asked::Pass;
use code::Code;
use record::{DATA, ENTRY, IMAGE_BOUND, RECORD, Tally};
use report::{LINE, REFUSAL, TALLY_LINE, Totals};

// The standard input and output, as file descriptors. The kit's io stays: by std's, what the program does at a failed or interrupted call would
// be another, and each function that prints would hand an error on of which no contract here speaks.
const STDIN: i32 = 0;

const STDOUT: i32 = 1;

// One byte more than an image may have, so that a longer input shows.
const INPUT: usize = IMAGE_BOUND / RECORD * RECORD + 1;

// The most records of a run, so that no buffer passes 64 KiB.
const RUN: usize = 65536 / ENTRY;

const JOURNAL: usize = RUN * ENTRY;

const LINES: usize = RUN * LINE;

// Source document 002, figure 2.
fn sample_code() -> Code
    ensures { result ≡ sample_code }
{
    let mut columns = [0; 64];
    columns[..8].copy_from_slice(&[28, 26, 25, 22, 21, 19, 14, 13]);
    Code {
        columns,
        k: 8,
        r: 5,
    }
}

// A pass over a run, whose entries are printed; its stamp is 0, and the journal is empty before it.
fn mend_run(
    image: &mut [u8],
    start: usize,
    end: usize,
    journal: &mut [u8],
    lines: &mut [u8],
) -> Tally
    requires { Ready image.old start end journal.old lines.old }
    ensures value { result ≡ run_tally image.old start end }
    ensures image_after { image.new ≡ run_left image.old start end }
    ensures lines_after { lines.new ≡ over (run_text image.old start end) lines.old }
{
    let opened = code::open_code(sample_code());
    let over = Pass {
        start,
        end,
        stamp: 0,
    };
    let answer = quick::pass(opened, DATA, over, image, journal, 0);
    let used = ENTRY * answer.used;
    let size = report::journal_text(&journal[..used], lines);
    io::write_all(STDOUT, &lines[..size]);
    answer.tally
}

// The image run by run, the tallies summed.
fn mend_runs(image: &mut [u8], journal: &mut [u8], lines: &mut [u8]) -> Totals
    requires image { Image data_size image.old }
    requires run_size_bound { (run_size ≤ room_in data_size journal.old) × (line_size * room_in data_size journal.old ≤ length lines.old) }
    ensures value { result ≡ as_totals (run_tally image.old 0 (records_in data_size image.old)) }
    ensures image_after { image.new ≡ run_left image.old 0 (records_in data_size image.old) }
{
    let records = image.len() / RECORD;
    let mut totals = Totals::default();
    for start in (0..records).step_by(RUN) {
        let end = records.min(start + RUN);
        let tally = mend_run(image, start, end, journal, lines);
        totals = totals.added(tally);
    }
    totals
}

fn print_tally(totals: Totals) {
    let mut line = [0u8; TALLY_LINE];
    let size = report::tally_text(totals, &mut line);
    io::write_all(STDOUT, &line[..size]);
}

fn print_refusal(number: usize)
    requires { number ≡ 12 }
{
    let mut line = [0u8; REFUSAL];
    let size = report::refused_text(number, &mut line);
    io::write_all(STDOUT, &line[..size]);
}

// A pass over no record tells whether the image is refused, before anything is printed.
fn mend_image(image: &mut [u8]) {
    let mut journal = [0u8; JOURNAL];
    let mut lines = [0u8; LINES];
    let opened = code::open_code(sample_code());
    let none = Pass {
        start: 0,
        end: 0,
        stamp: 0,
    };
    let answer = pass::pass(opened, DATA, none, image, &mut journal, 0);
    let number = answer.number;
    if number != 0 {
        print_refusal(number);
        return;
    }
    print_tally(mend_runs(image, &mut journal, &mut lines));
}

// The input, into a buffer that a byte more than an image has fits in; answers how many bytes it has.
fn read_image(image: &mut [u8]) -> usize
    requires { image_limit data_size < length image.old }
    ensures upper_bound { result ≤ length image.new }
    ensures image_len_unchanged { length image.new ≡ length image.old }
{
    io::read_full(STDIN, image)
}

fn main() {
    let mut image = [0u8; INPUT];
    let size = read_image(&mut image);
    mend_image(&mut image[..size]);
}
