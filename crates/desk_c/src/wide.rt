// The exports of the wide edition.
ghost use Rattle.std.specs.Prelude.{◌≡◌};
ghost use Rattle.asked.specs.Pass.{pass_over, state_of};
ghost use Rattle.desk.specs.Wide.{wide_check_bits_of, wide_made_of, wide_judgement_of, wide_rows_of, wide_written_of, wide_read_of, wide_word};
ghost use Rattle.desk.specs.Wide.{wide_explained_of, wide_cards_of, wide_passed_of, wide_put_back_of, wide_recovered_of, wide_bad_places_of};

use asked::Pass;
use balance::RowBalance;
use card_check::CardCheck;
use code::{Refusal, WideCode};
use explain::Listing;
use finder::Found;
use make::WideMade;
use pass::PassAnswer;
use put_back::PutBack;
use reading::Reading;
use record::WIDE_DATA;
use recover::Recovery;
use wanted::CheckBits;
use word::Word;
use writing::CheckWord;

// Check bits wanted for up to 128 data bits.
#[unsafe(no_mangle)]
pub extern "C" fn desk_wide_check_bits(k: usize) -> CheckBits
    ensures { result ≡ wide_check_bits_of k }
{
    wanted::check_bits_wanted::<128>(k)
}

// The maker, to 128 data bits.
#[unsafe(no_mangle)]
pub extern "C" fn desk_wide_make(k: usize, r: usize) -> WideMade
    ensures { result ≡ wide_made_of k r }
{
    make::make_wide(k, r)
}

// The judge.
#[unsafe(no_mangle)]
pub extern "C" fn desk_wide_judge(code: WideCode) -> Refusal
    ensures { result ≡ wide_judgement_of code }
{
    questions::judge(code)
}

// Row balance.
#[unsafe(no_mangle)]
pub extern "C" fn desk_wide_row_balance(code: WideCode) -> RowBalance
    ensures { result ≡ wide_rows_of code }
{
    questions::row_balance(code)
}

// Writing: the check bits of data in two halves.
#[unsafe(no_mangle)]
pub extern "C" fn desk_wide_write(code: WideCode, low: u64, high: u64) -> CheckWord
    ensures { result ≡ wide_written_of code low high }
{
    questions::write(code, low, high)
}

// Reading: verdict, place, syndrome and the word handed back.
#[unsafe(no_mangle)]
pub extern "C" fn desk_wide_read(code: WideCode, low: u64, high: u64, check: u16) -> Reading
    ensures { result ≡ wide_read_of code low high check }
{
    questions::read(code, Word { low, high, check })
}

// Explanations: a list of at most 72 entries.
#[unsafe(no_mangle)]
pub extern "C" fn desk_wide_explain(
    code: WideCode,
    low: u64,
    high: u64,
    check: u16,
    limit: usize,
    list: &mut [u8],
) -> Listing
    ensures value { result ≡ (wide_explained_of code (wide_word low high check) limit list.old).answer }
    ensures list_after { list.new ≡ (wide_explained_of code (wide_word low high check) limit list.old).list }
{
    let word = Word { low, high, check };
    questions::explain(code, word, limit, list)
}

// The card check.
#[unsafe(no_mangle)]
pub extern "C" fn desk_wide_cards(code: WideCode, b: usize) -> CardCheck
    ensures { result ≡ wide_cards_of code b }
{
    questions::cards(code, b)
}

// The pass over records of 18 bytes, with entries of 46.
#[unsafe(no_mangle)]
pub extern "C" fn desk_wide_pass(
    code: WideCode,
    image: &mut [u8],
    start: usize,
    end: usize,
    journal: &mut [u8],
    used: usize,
    stamp: u32,
) -> PassAnswer
    ensures value { result ≡ (wide_passed_of code (pass_over start end stamp) (state_of image.old journal.old used)).answer }
    ensures image_after { image.new
        ≡ (wide_passed_of code (pass_over start end stamp) (state_of image.old journal.old used)).image }
    ensures journal_after { journal.new
        ≡ (wide_passed_of code (pass_over start end stamp) (state_of image.old journal.old used)).journal }
{
    let over = Pass { start, end, stamp };
    questions::pass(code, over, image, journal, used)
}

// The put-back of an image with records of 18 bytes, from a journal with entries of 46.
#[unsafe(no_mangle)]
pub extern "C" fn desk_wide_put_back(image: &mut [u8], journal: &[u8], used: usize) -> PutBack
    ensures value { result ≡ (wide_put_back_of image.old journal.now used).answer }
    ensures image_after { image.new ≡ (wide_put_back_of image.old journal.now used).image }
{
    put_back::put_back(WIDE_DATA, image, journal, used)
}

// Places known to be bad: the code word, 0 where it is refused.
#[unsafe(no_mangle)]
pub extern "C" fn desk_wide_recover(
    code: WideCode,
    low: u64,
    high: u64,
    check: u16,
    bad: &[usize],
) -> Recovery
    ensures { result ≡ wide_recovered_of code (wide_word low high check) bad.now }
{
    let word = Word { low, high, check };
    questions::recover(code, word, bad)
}

// The finder: from two reads after a pattern and its complement, the bad places as ones.
#[unsafe(no_mangle)]
pub extern "C" fn desk_wide_find_bad(code: WideCode, first: Word, second: Word) -> Found
    ensures { result ≡ wide_bad_places_of code first second }
{
    questions::find_bad(code, first, second)
}
