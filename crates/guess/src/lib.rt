// Places by a guess that is checked: a table of 512 slots by a column's low nine bits, so that most places are found in one look.
#![tactic(auto)]

ghost use Rattle.std.specs.Prelude.{◌≡◌, ◌%◌, ◌<◌, length};
ghost use Rattle.columns.specs.Mix.{column, place_in};
ghost use Rattle.guess.specs.Guess.{slots, Guessed};

// A column has the slot that its low nine bits name.
pub const SLOTS: usize = 512;

fn slot_of(column: u16) -> usize
    ensures { result ≡ column % slots }
{
    usize::from(column) % SLOTS
}

// What a slot holds that no column has: no place of a code. A number and no Option: that takes two bytes a slot, written for each question.
pub const NONE: u8 = 255;

// Each column's place is written into its slot, from the last column to the first: of columns with one slot the first stays. A place past
// 255 is written as a lower one, which is no harm: what is guessed is never behind a column's own place.
pub fn fill_guesses(guesses: &mut [u8], columns: &[u16])
    requires { length guesses.old ≡ slots }
    ensures { Guessed columns.now guesses.new }
{
    for i in (0..columns.len()).rev() {
        guesses[slot_of(columns[i])] = (i % 256) as u8;
    }
}

// The place of s, or the number of columns: no column has an empty slot, the guess is right if its column is s, else the search speaks.
pub fn place(columns: &[u16], guesses: &[u8], s: u16) -> usize
    requires { Guessed columns.now guesses.now }
    ensures { result ≡ place_in columns.now s }
{
    let at = usize::from(guesses[slot_of(s)]);
    if at >= columns.len() {
        return columns.len();
    }
    if columns[at] == s {
        return at;
    }
    columns::place_in(columns, s)
}

// The first place of the column at i: i itself where that is guessed, else the search speaks.
pub fn own_place(columns: &[u16], guesses: &[u8], i: usize) -> usize
    requires guessed { Guessed columns.now guesses.now }
    requires i_in_bounds { i < length columns.now }
    ensures { result ≡ place_in columns.now (column columns.now i) }
{
    let c = columns[i];
    let slot = slot_of(c);
    if usize::from(guesses[slot]) == i {
        return i;
    }
    columns::place_in(columns, c)
}
