// The exports of the pass by the quick engine.
ghost use Rattle.std.specs.Prelude.{◌≡◌};
ghost use Rattle.asked.specs.Pass.{pass_over, state_of};
ghost use Rattle.desk.specs.Quick.{quick_passed_of, wide_quick_passed_of, rows_quick_passed_of, wide_rows_quick_passed_of};

use asked::Pass;
use code::{Code, WideCode};
use pass::PassAnswer;
use rows::{RowCode, WideRowCode};

// As `desk_pass`.
#[unsafe(no_mangle)]
pub extern "C" fn desk_quick_pass(
    code: Code,
    image: &mut [u8],
    start: usize,
    end: usize,
    journal: &mut [u8],
    used: usize,
    stamp: u32,
) -> PassAnswer
    ensures value { result
        ≡ (quick_passed_of code (pass_over start end stamp) (state_of image.old journal.old used)).answer }
    ensures image_after { image.new
        ≡ (quick_passed_of code (pass_over start end stamp) (state_of image.old journal.old used)).image }
    ensures journal_after { journal.new
        ≡ (quick_passed_of code (pass_over start end stamp) (state_of image.old journal.old used)).journal }
{
    let over = Pass { start, end, stamp };
    questions::quick_pass(code, over, image, journal, used)
}

// As `desk_wide_pass`.
#[unsafe(no_mangle)]
pub extern "C" fn desk_wide_quick_pass(
    code: WideCode,
    image: &mut [u8],
    start: usize,
    end: usize,
    journal: &mut [u8],
    used: usize,
    stamp: u32,
) -> PassAnswer
    ensures value { result
        ≡ (wide_quick_passed_of code (pass_over start end stamp) (state_of image.old journal.old used)).answer }
    ensures image_after { image.new
        ≡ (wide_quick_passed_of code (pass_over start end stamp) (state_of image.old journal.old used)).image }
    ensures journal_after { journal.new
        ≡ (wide_quick_passed_of code (pass_over start end stamp) (state_of image.old journal.old used)).journal }
{
    let over = Pass { start, end, stamp };
    questions::quick_pass(code, over, image, journal, used)
}

// As `desk_rows_pass`.
#[unsafe(no_mangle)]
pub extern "C" fn desk_rows_quick_pass(
    code: RowCode,
    image: &mut [u8],
    start: usize,
    end: usize,
    journal: &mut [u8],
    used: usize,
    stamp: u32,
) -> PassAnswer
    ensures value { result
        ≡ (rows_quick_passed_of code (pass_over start end stamp) (state_of image.old journal.old used)).answer }
    ensures image_after { image.new
        ≡ (rows_quick_passed_of code (pass_over start end stamp) (state_of image.old journal.old used)).image }
    ensures journal_after { journal.new
        ≡ (rows_quick_passed_of code (pass_over start end stamp) (state_of image.old journal.old used)).journal }
{
    let over = Pass { start, end, stamp };
    questions::quick_pass(code, over, image, journal, used)
}

// As `desk_wide_rows_pass`.
#[unsafe(no_mangle)]
pub extern "C" fn desk_wide_rows_quick_pass(
    code: WideRowCode,
    image: &mut [u8],
    start: usize,
    end: usize,
    journal: &mut [u8],
    used: usize,
    stamp: u32,
) -> PassAnswer
    ensures value { result
        ≡ (wide_rows_quick_passed_of code (pass_over start end stamp) (state_of image.old journal.old used)).answer }
    ensures image_after { image.new
        ≡ (wide_rows_quick_passed_of code (pass_over start end stamp) (state_of image.old journal.old used)).image }
    ensures journal_after { journal.new
        ≡ (wide_rows_quick_passed_of code (pass_over start end stamp) (state_of image.old journal.old used)).journal }
{
    let over = Pass { start, end, stamp };
    questions::quick_pass(code, over, image, journal, used)
}
