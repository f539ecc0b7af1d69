// The exports for codes with a chosen set of rows in the wide edition.
ghost use Rattle.std.specs.Prelude.{◌≡◌};
ghost use Rattle.asked.specs.Pass.{pass_over, state_of};
ghost use Rattle.desk.specs.Wide.{wide_word};
ghost use Rattle.desk.specs.Rows.{wide_rows_judgement_of, wide_rows_balance_of, wide_rows_written_of, wide_rows_read_of, wide_rows_explained_of, wide_rows_cards_of, wide_rows_passed_of};
ghost use Rattle.desk.specs.Rows.{wide_rows_recovered_of, wide_rows_bad_places_of};

use asked::Pass;
use balance::RowBalance;
use card_check::CardCheck;
use code::Refusal;
use explain::Listing;
use finder::Found;
use pass::PassAnswer;
use reading::Reading;
use recover::Recovery;
use rows::WideRowCode;
use word::Word;
use writing::CheckWord;

// The judge: the number, and the place or, for 20, the reason.
#[unsafe(no_mangle)]
pub extern "C" fn desk_wide_rows_judge(code: WideRowCode) -> Refusal
    ensures { result ≡ wide_rows_judgement_of code }
{
    questions::judge(code)
}

// Row balance, over all n columns.
#[unsafe(no_mangle)]
pub extern "C" fn desk_wide_rows_row_balance(code: WideRowCode) -> RowBalance
    ensures { result ≡ wide_rows_balance_of code }
{
    questions::row_balance(code)
}

// Writing: the check bits are solved for.
#[unsafe(no_mangle)]
pub extern "C" fn desk_wide_rows_write(code: WideRowCode, low: u64, high: u64) -> CheckWord
    ensures { result ≡ wide_rows_written_of code low high }
{
    questions::write(code, low, high)
}

// Reading.
#[unsafe(no_mangle)]
pub extern "C" fn desk_wide_rows_read(code: WideRowCode, low: u64, high: u64, check: u16) -> Reading
    ensures { result ≡ wide_rows_read_of code low high check }
{
    questions::read(code, Word { low, high, check })
}

// Explanations.
#[unsafe(no_mangle)]
pub extern "C" fn desk_wide_rows_explain(
    code: WideRowCode,
    low: u64,
    high: u64,
    check: u16,
    limit: usize,
    list: &mut [u8],
) -> Listing
    ensures value { result ≡ (wide_rows_explained_of code (wide_word low high check) limit list.old).answer }
    ensures list_after { list.new ≡ (wide_rows_explained_of code (wide_word low high check) limit list.old).list }
{
    let word = Word { low, high, check };
    questions::explain(code, word, limit, list)
}

// The card check.
#[unsafe(no_mangle)]
pub extern "C" fn desk_wide_rows_cards(code: WideRowCode, b: usize) -> CardCheck
    ensures { result ≡ wide_rows_cards_of code b }
{
    questions::cards(code, b)
}

// The pass.
#[unsafe(no_mangle)]
pub extern "C" fn desk_wide_rows_pass(
    code: WideRowCode,
    image: &mut [u8],
    start: usize,
    end: usize,
    journal: &mut [u8],
    used: usize,
    stamp: u32,
) -> PassAnswer
    ensures value { result
        ≡ (wide_rows_passed_of code (pass_over start end stamp) (state_of image.old journal.old used)).answer }
    ensures image_after { image.new
        ≡ (wide_rows_passed_of code (pass_over start end stamp) (state_of image.old journal.old used)).image }
    ensures journal_after { journal.new
        ≡ (wide_rows_passed_of code (pass_over start end stamp) (state_of image.old journal.old used)).journal }
{
    let over = Pass { start, end, stamp };
    questions::pass(code, over, image, journal, used)
}

// Places known to be bad.
#[unsafe(no_mangle)]
pub extern "C" fn desk_wide_rows_recover(
    code: WideRowCode,
    low: u64,
    high: u64,
    check: u16,
    bad: &[usize],
) -> Recovery
    ensures { result ≡ wide_rows_recovered_of code (wide_word low high check) bad.now }
{
    let word = Word { low, high, check };
    questions::recover(code, word, bad)
}

// The finder.
#[unsafe(no_mangle)]
pub extern "C" fn desk_wide_rows_find_bad(code: WideRowCode, first: Word, second: Word) -> Found
    ensures { result ≡ wide_rows_bad_places_of code first second }
{
    questions::find_bad(code, first, second)
}
