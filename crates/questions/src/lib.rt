// The questions, of a code of any family and edition: it is opened, and the question asked of what it is opened to.
#![tactic(auto)]

ghost use Rattle.std.specs.Prelude.{◌≡◌};
ghost use Rattle.code.specs.Opened.{judgement_in};
ghost use Rattle.balance.specs.Balance.{balances_of};
ghost use Rattle.word.specs.Word.{joined};
ghost use Rattle.writing.specs.Writing.{writing_of};
ghost use Rattle.reading.specs.Reading.{reading_of};
ghost use Rattle.explain.specs.Explanations.{explain_of};
ghost use Rattle.recover.specs.Recover.{recover_of};
ghost use Rattle.finder.specs.Finder.{find_of};
ghost use Rattle.card_check.specs.Checking.{carded_of};
ghost use Rattle.asked.specs.Pass.{state_of};
ghost use Rattle.pass.specs.Pass.{after_pass};

use asked::Pass;
use balance::RowBalance;
use card_check::CardCheck;
use code::Refusal;
use explain::Listing;
use finder::Found;
use opens::Opens;
use pass::PassAnswer;
use reading::Reading;
use recover::Recovery;
use word::Word;
use writing::CheckWord;

pub fn judge<C: Opens>(code: C) -> Refusal
    ensures { result ≡ judgement_in (C.opened code) }
{
    code::judgement(code.open())
}

pub fn row_balance<C: Opens>(code: C) -> RowBalance
    ensures { result ≡ balances_of (C.opened code) }
{
    balance::row_balance(code.open())
}

// Data come in two halves; with a zero for the high one they are a number of 64 bits.
pub fn write<C: Opens>(code: C, low: u64, high: u64) -> CheckWord
    ensures { result ≡ writing_of (C.opened code) (joined low high) }
{
    writing::write(code.open(), low, high)
}

pub fn read<C: Opens>(code: C, word: Word) -> Reading
    ensures { result ≡ reading_of (C.opened code) word }
{
    reading::read(code.open(), word)
}

pub fn explain<C: Opens>(code: C, word: Word, limit: usize, list: &mut [u8]) -> Listing
    ensures value { result ≡ (explain_of (C.opened code) word limit list.old).answer }
    ensures list_after { list.new ≡ (explain_of (C.opened code) word limit list.old).list }
{
    explain::explain(code.open(), word, limit, list)
}

pub fn cards<C: Opens>(code: C, b: usize) -> CardCheck
    ensures { result ≡ carded_of (C.opened code) b }
{
    card_check::card_check(code.open(), b)
}

pub fn recover<C: Opens>(code: C, word: Word, bad: &[usize]) -> Recovery
    ensures { result ≡ recover_of (C.opened code) word bad.now }
{
    recover::recover(code.open(), word, bad)
}

pub fn find_bad<C: Opens>(code: C, first: Word, second: Word) -> Found
    ensures { result ≡ find_of (C.opened code) first second }
{
    finder::find_bad(code.open(), first, second)
}

pub fn pass<C: Opens>(
    code: C,
    over: Pass,
    image: &mut [u8],
    journal: &mut [u8],
    used: usize,
) -> PassAnswer
    ensures value { result ≡ (after_pass (C.opened code) C.DATA over (state_of image.old journal.old used)).answer }
    ensures image_after { image.new ≡ (after_pass (C.opened code) C.DATA over (state_of image.old journal.old used)).image }
    ensures journal_after { journal.new ≡ (after_pass (C.opened code) C.DATA over (state_of image.old journal.old used)).journal }
{
    pass::pass(code.open(), C::DATA, over, image, journal, used)
}

// The plain pass is done with so few records before the quick one has filled its tables.
const FEW: usize = 1;

// Either engine gives the same answer, so nothing is promised of this choice. A run turned round goes to the plain pass, which refuses it.
fn few(over: Pass) -> bool {
    over.end.saturating_sub(over.start) <= FEW
}

// The plain pass's contract, word for word, kept by the quick engine.
pub fn quick_pass<C: Opens>(
    code: C,
    over: Pass,
    image: &mut [u8],
    journal: &mut [u8],
    used: usize,
) -> PassAnswer
    ensures value { result ≡ (after_pass (C.opened code) C.DATA over (state_of image.old journal.old used)).answer }
    ensures image_after { image.new ≡ (after_pass (C.opened code) C.DATA over (state_of image.old journal.old used)).image }
    ensures journal_after { journal.new ≡ (after_pass (C.opened code) C.DATA over (state_of image.old journal.old used)).journal }
{
    let opened = code.open();
    if few(over) {
        return pass::pass(opened, C::DATA, over, image, journal, used);
    }
    quick::pass(opened, C::DATA, over, image, journal, used)
}
