// What C links: an export for each question, and for each kind of code that it may be asked of, since C has no generic functions.
#![tactic(auto)]

ghost use Rattle.std.specs.Prelude.{◌≡◌};
ghost use Rattle.asked.specs.Pass.{pass_over, state_of};
ghost use Rattle.desk.specs.Answers.{version, check_bits_of, judgement_of, rows_of, written_of, read_of, explained_of, cards_of, passed_of};
ghost use Rattle.desk.specs.Answers.{ceiling_sheet, band_sheet, open_sheet};
ghost use Rattle.desk.specs.Answers.{made_of};
ghost use Rattle.desk.specs.Answers.{byte_written, byte_read};
ghost use Rattle.desk.specs.Answers.{put_back_of};
ghost use Rattle.desk.specs.Answers.{recovered_of, bad_places_of};

use asked::Pass;
use balance::RowBalance;
use byte_code::{ByteReading, ByteWriting};
use card_check::CardCheck;
use code::{Code, Refusal};
use desk::{BadPlaces, ReadWord, Recovered, VERSION, word_with};
use explain::Listing;
use make::Made;
use pass::PassAnswer;
use put_back::PutBack;
use record::DATA;
use sheet::{Limit, SheetAnswer};
use wanted::CheckBits;
use writing::CheckWord;

pub mod quick_passes;
pub mod row_sets;
pub mod wide;
pub mod wide_row_sets;

#[unsafe(no_mangle)]
pub extern "C" fn desk_version() -> usize
    ensures { result ≡ version }
{
    VERSION
}

// Check bits wanted: the number, and the check bits where it is 0.
#[unsafe(no_mangle)]
pub extern "C" fn desk_check_bits(k: usize) -> CheckBits
    ensures { result ≡ check_bits_of k }
{
    wanted::check_bits_wanted::<64>(k)
}

// The judge: the number, and the place of the bad column.
#[unsafe(no_mangle)]
pub extern "C" fn desk_judge(code: Code) -> Refusal
    ensures { result ≡ judgement_of code }
{
    questions::judge(code)
}

// Row balance: all 16 rows.
#[unsafe(no_mangle)]
pub extern "C" fn desk_row_balance(code: Code) -> RowBalance
    ensures { result ≡ rows_of code }
{
    questions::row_balance(code)
}

// Writing: the check bits.
#[unsafe(no_mangle)]
pub extern "C" fn desk_write(code: Code, data: u64) -> CheckWord
    ensures { result ≡ written_of code «data» }
{
    questions::write(code, data, 0)
}

#[unsafe(no_mangle)]
pub extern "C" fn desk_read(code: Code, data: u64, check: u16) -> ReadWord
    ensures { result ≡ read_of code «data» check }
{
    ReadWord::from(questions::read(code, word_with(data, check)))
}

// Explanations: the list's length where it is done; the list itself stands in the lent bytes.
#[unsafe(no_mangle)]
pub extern "C" fn desk_explain(
    code: Code,
    data: u64,
    check: u16,
    limit: usize,
    list: &mut [u8],
) -> Listing
    ensures value { result ≡ (explained_of code «data» check limit list.old).answer }
    ensures list_after { list.new ≡ (explained_of code «data» check limit list.old).list }
{
    questions::explain(code, word_with(data, check), limit, list)
}

// The card check: the first weak card and its smallest mask, where the number is 9. Cards begin again at the first check place.
#[unsafe(no_mangle)]
pub extern "C" fn desk_cards(code: Code, b: usize) -> CardCheck
    ensures { result ≡ cards_of code b }
{
    questions::cards(code, b)
}

// A pass with a stamp over the records of an image from `start` up to `end`, with `used` entries of the journal in use: the count in use
// afterwards and the tally, all zero where it is refused.
#[unsafe(no_mangle)]
pub extern "C" fn desk_pass(
    code: Code,
    image: &mut [u8],
    start: usize,
    end: usize,
    journal: &mut [u8],
    used: usize,
    stamp: u32,
) -> PassAnswer
    ensures value { result ≡ (passed_of code (pass_over start end stamp) (state_of image.old journal.old used)).answer }
    ensures image_after { image.new
        ≡ (passed_of code (pass_over start end stamp) (state_of image.old journal.old used)).image }
    ensures journal_after { journal.new
        ≡ (passed_of code (pass_over start end stamp) (state_of image.old journal.old used)).journal }
{
    let over = Pass { start, end, stamp };
    questions::pass(code, over, image, journal, used)
}

// The put-back: from the last of the `used` entries of a journal to the first, a record that holds an entry's bytes as left gets its bytes as
// read. How many entries were put back; 18 where one does not match, and those behind it stay put back.
#[unsafe(no_mangle)]
pub extern "C" fn desk_put_back(image: &mut [u8], journal: &[u8], used: usize) -> PutBack
    ensures value { result ≡ (put_back_of image.old journal.now used).answer }
    ensures image_after { image.new ≡ (put_back_of image.old journal.now used).image }
{
    put_back::put_back(DATA, image, journal, used)
}

// A station's sheet, judged against a ceiling: the number, yes or no, and the three figures.
#[unsafe(no_mangle)]
pub extern "C" fn desk_sheet_ceiling(
    hours: f64,
    devices: usize,
    words: usize,
    mended: usize,
    high: f64,
) -> SheetAnswer
    ensures { result ≡ ceiling_sheet hours devices words mended high }
{
    sheet::sheet_of(hours, devices, words, mended, Limit::Ceiling(high))
}

// A station's sheet, judged against a band.
#[unsafe(no_mangle)]
pub extern "C" fn desk_sheet_band(
    hours: f64,
    devices: usize,
    words: usize,
    mended: usize,
    low: f64,
    high: f64,
) -> SheetAnswer
    ensures { result ≡ band_sheet hours devices words mended low high }
{
    sheet::sheet_of(hours, devices, words, mended, Limit::Band(low, high))
}

// A station's sheet with no limit.
#[unsafe(no_mangle)]
pub extern "C" fn desk_sheet_open(
    hours: f64,
    devices: usize,
    words: usize,
    mended: usize,
) -> SheetAnswer
    ensures { result ≡ open_sheet hours devices words mended }
{
    sheet::sheet_of(hours, devices, words, mended, Limit::Open)
}

// The maker: the number, and the code, whose places are all 0 where it is refused.
#[unsafe(no_mangle)]
pub extern "C" fn desk_make(k: usize, r: usize) -> Made
    ensures { result ≡ made_of k r }
{
    make::make(k, r)
}

// Writing under the byte-correcting code: the whole word of 30 bits, data in bits 0 to 20.
#[unsafe(no_mangle)]
pub extern "C" fn desk_byte_write(data: u64) -> ByteWriting
    ensures { result ≡ byte_written «data» }
{
    byte_code::write(data)
}

// Reading under the byte-correcting code: verdict, byte number, and the word put right or as read.
#[unsafe(no_mangle)]
pub extern "C" fn desk_byte_read(word: u64) -> ByteReading
    ensures { result ≡ byte_read word }
{
    byte_code::read(word)
}

#[unsafe(no_mangle)]
pub extern "C" fn desk_recover(code: Code, data: u64, check: u16, bad: &[usize]) -> Recovered
    ensures { result ≡ recovered_of code «data» check bad.now }
{
    Recovered::from(questions::recover(code, word_with(data, check), bad))
}

#[unsafe(no_mangle)]
pub extern "C" fn desk_find_bad(
    code: Code,
    first_data: u64,
    first_check: u16,
    second_data: u64,
    second_check: u16,
) -> BadPlaces
    ensures { result ≡ bad_places_of code first_data first_check second_data second_check }
{
    let first = word_with(first_data, first_check);
    let second = word_with(second_data, second_check);
    BadPlaces::from(questions::find_bad(code, first, second))
}
