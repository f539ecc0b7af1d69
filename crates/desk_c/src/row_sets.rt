// The exports for codes with a chosen set of rows.
ghost use Rattle.std.specs.Prelude.{◌≡◌};
ghost use Rattle.asked.specs.Pass.{pass_over, state_of};
ghost use Rattle.desk.specs.Rows.{rows_judgement_of, rows_balance_of, rows_written_of, rows_read_of, rows_explained_of, rows_cards_of, rows_passed_of};
ghost use Rattle.desk.specs.Rows.{rows_recovered_of, rows_bad_places_of};

use asked::Pass;
use balance::RowBalance;
use card_check::CardCheck;
use code::Refusal;
use desk::{BadPlaces, ReadWord, Recovered, word_with};
use explain::Listing;
use pass::PassAnswer;
use rows::RowCode;
use writing::CheckWord;

// The judge: the number, and the place or, for 20, the reason.
#[unsafe(no_mangle)]
pub extern "C" fn desk_rows_judge(code: RowCode) -> Refusal
    ensures { result ≡ rows_judgement_of code }
{
    questions::judge(code)
}

// Row balance, over all n columns.
#[unsafe(no_mangle)]
pub extern "C" fn desk_rows_row_balance(code: RowCode) -> RowBalance
    ensures { result ≡ rows_balance_of code }
{
    questions::row_balance(code)
}

// Writing: the check bits are solved for.
#[unsafe(no_mangle)]
pub extern "C" fn desk_rows_write(code: RowCode, data: u64) -> CheckWord
    ensures { result ≡ rows_written_of code «data» }
{
    questions::write(code, data, 0)
}

// Reading.
#[unsafe(no_mangle)]
pub extern "C" fn desk_rows_read(code: RowCode, data: u64, check: u16) -> ReadWord
    ensures { result ≡ rows_read_of code «data» check }
{
    ReadWord::from(questions::read(code, word_with(data, check)))
}

// Explanations.
#[unsafe(no_mangle)]
pub extern "C" fn desk_rows_explain(
    code: RowCode,
    data: u64,
    check: u16,
    limit: usize,
    list: &mut [u8],
) -> Listing
    ensures value { result ≡ (rows_explained_of code «data» check limit list.old).answer }
    ensures list_after { list.new ≡ (rows_explained_of code «data» check limit list.old).list }
{
    questions::explain(code, word_with(data, check), limit, list)
}

// The card check.
#[unsafe(no_mangle)]
pub extern "C" fn desk_rows_cards(code: RowCode, b: usize) -> CardCheck
    ensures { result ≡ rows_cards_of code b }
{
    questions::cards(code, b)
}

// The pass.
#[unsafe(no_mangle)]
pub extern "C" fn desk_rows_pass(
    code: RowCode,
    image: &mut [u8],
    start: usize,
    end: usize,
    journal: &mut [u8],
    used: usize,
    stamp: u32,
) -> PassAnswer
    ensures value { result ≡ (rows_passed_of code (pass_over start end stamp) (state_of image.old journal.old used)).answer }
    ensures image_after { image.new
        ≡ (rows_passed_of code (pass_over start end stamp) (state_of image.old journal.old used)).image }
    ensures journal_after { journal.new
        ≡ (rows_passed_of code (pass_over start end stamp) (state_of image.old journal.old used)).journal }
{
    let over = Pass { start, end, stamp };
    questions::pass(code, over, image, journal, used)
}

// Places known to be bad.
#[unsafe(no_mangle)]
pub extern "C" fn desk_rows_recover(
    code: RowCode,
    data: u64,
    check: u16,
    bad: &[usize],
) -> Recovered
    ensures { result ≡ rows_recovered_of code «data» check bad.now }
{
    Recovered::from(questions::recover(code, word_with(data, check), bad))
}

// The finder.
#[unsafe(no_mangle)]
pub extern "C" fn desk_rows_find_bad(
    code: RowCode,
    first_data: u64,
    first_check: u16,
    second_data: u64,
    second_check: u16,
) -> BadPlaces
    ensures { result ≡ rows_bad_places_of code first_data first_check second_data second_check }
{
    let first = word_with(first_data, first_check);
    let second = word_with(second_data, second_check);
    BadPlaces::from(questions::find_bad(code, first, second))
}
