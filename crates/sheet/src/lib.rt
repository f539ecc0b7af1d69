// A sheet for each station: three figures as floats, and whether the share of words mended is within the house limit.
#![tactic(auto)]

ghost use Rattle.std.specs.Prelude.{◌≡◌};
ghost use Rattle.std.specs.Float.Ieee.Scale as scale;
ghost use Rattle.sheet.specs.Sheets as specs;

// A station sheet: hours per device, hours per station, and the share of words mended.
#[repr(C)]
#[derive(Clone, Copy)]
pub struct Sheet {
    pub device: f64,
    pub station: f64,
    pub share: f64,
}

// A house limit on the share: a ceiling, a band from a low figure to a high one, or no limit.
#[derive(Clone, Copy)]
pub enum Limit {
    Ceiling(f64),
    Band(f64, f64),
    Open,
}

// The answer: yes exactly when the share is within the limit. The refusal is a number in it, as C has it.
#[repr(C)]
#[derive(Clone, Copy)]
pub struct SheetAnswer {
    pub number: usize,
    pub told: usize,
    pub yes: bool,
    pub sheet: Sheet,
}

// A count of devices or of words that a sheet takes: it is not 0, and a u16 holds it.
fn countable(n: usize) -> bool
    ensures { result ≡ specs.countable n }
{
    (1..=65535).contains(&n)
}

// A NaN or an infinity less itself is a NaN, and any other figure less itself is zero.
fn finite(x: f64) -> bool
    ensures { result ≡ scale.finite x }
{
    x - x == 0.0
}

// A limit's figure: finite, and not below zero.
fn figure_stands(x: f64) -> bool
    ensures { result ≡ specs.figure_stands x }
{
    finite(x) && !(x < 0.0)
}

// A band's ends may be equal, but it is not upside down.
fn limit_stands(limit: Limit) -> bool
    ensures { result ≡ specs.limit_stands limit }
{
    match limit {
        Limit::Ceiling(high) => figure_stands(high),
        Limit::Band(low, high) => figure_stands(low) && figure_stands(high) && !(high < low),
        Limit::Open => true,
    }
}

// Hours per station: hours per device by the count of devices, rounded once.
fn station_hours(hours: f64, devices: u16) -> f64
    ensures { result ≡ specs.station_hours hours devices }
{
    hours / devices as f64
}

// The share of words mended, rounded once.
fn share_of(mended: u16, words: u16) -> f64
    ensures { result ≡ specs.share_of mended words }
{
    mended as f64 / words as f64
}

// Whether a share is within the limit: its ends are inside.
fn within(limit: Limit, share: f64) -> bool
    ensures { result ≡ specs.within limit share }
{
    match limit {
        Limit::Ceiling(high) => share <= high,
        Limit::Band(low, high) => low <= share && share <= high,
        Limit::Open => true,
    }
}

// What is asked: hours per device, the counts of devices, of words and of mended words, and the house limit on the share.
#[derive(Clone, Copy)]
pub struct Asked {
    pub hours: f64,
    pub devices: usize,
    pub words: usize,
    pub mended: usize,
    pub limit: Limit,
}

impl Asked {
    // What 19 asks of the counts, of the hours and of the limit.
    #[tactic(auto, unfolding(crate::specs::Sheets::stands))]
    fn stands(self) -> bool
        ensures { result ≡ specs.stands self }
    {
        countable(self.devices)
            && countable(self.words)
            && self.mended <= self.words
            && finite(self.hours)
            && self.hours > 0.0
            && limit_stands(self.limit)
    }

    // The three figures, or none where 19 has something to ask.
    fn sheet(self) -> Option<Sheet>
        ensures { result ≡ specs.figures_of self }
    {
        if !self.stands() {
            return None;
        }
        Some(Sheet {
            device: self.hours,
            station: station_hours(self.hours, self.devices as u16),
            share: share_of(self.mended as u16, self.words as u16),
        })
    }
}

// The sheet of a station, judged on its share; 19 where it has none.
// Its parameters stay five, as those of the exported functions that ask it; Asked holds them from here on.
pub fn sheet_of(
    hours: f64,
    devices: usize,
    words: usize,
    mended: usize,
    limit: Limit,
) -> SheetAnswer
    ensures { result ≡ specs.sheet_of (specs.asked hours devices words mended limit) }
{
    let asked = Asked {
        hours,
        devices,
        words,
        mended,
        limit,
    };
    match asked.sheet() {
        Some(sheet) => SheetAnswer {
            number: 0,
            told: 0,
            yes: within(limit, sheet.share),
            sheet,
        },
        None => SheetAnswer {
            number: 19,
            told: 0,
            yes: false,
            sheet: Sheet {
                device: 0.0,
                station: 0.0,
                share: 0.0,
            },
        },
    }
}
