// The bad places of a word as they are handed over, and the proper word within reach of them, found by syndromes.
#![tactic(auto)]

ghost use Rattle.std.specs.Prelude.{◌≡◌, false, ◌+◌, ◌≤◌, length};
ghost use Rattle.columns.specs.Mix.{mix};
ghost use Rattle.word.specs.Word.{as_number, stray_in};
ghost use Rattle.reach.specs.Places.{misnamed, wrong_places};
ghost use Rattle.reach.specs.BySyndrome.{near_by, reach_by};

use word::Word;

// Whether a place of a list is at n or above, or stands again behind it.
fn misnamed(n: usize, places: &[usize]) -> bool
    ensures { result ≡ misnamed n places.now }
{
    for (i, p) in places.iter().enumerate() {
        if *p >= n || places[i + 1..].contains(p) {
            return true;
        }
    }
    false
}

// Whether the bad places are more than three, repeat one, or name one at n or above.
pub fn wrong_places(n: usize, bad: &[usize]) -> bool
    ensures { result ≡ wrong_places n bad.now }
{
    bad.len() > 3 || misnamed(n, bad)
}

// The word itself where its syndrome is 0; with a flip to spare, the word with that place flipped whose column the syndrome is.
#[tactic(auto, unfolding(crate::specs::BySyndrome::near_by))]
fn near(columns: &[u16], k: usize, flips: usize, word: Word) -> Option<Word>
    requires k_in_bounds { (k ≤ length columns.now) × (length columns.now ≤ k + 16) × (k ≤ 128) }
    requires word_value { stray_in (length columns.now) k word ≡ false }
    ensures { result ≡ near_by columns.now k flips (mix columns.now (as_number k word)) word }
{
    let s = word.syndrome_in(columns, k);
    if s == 0 {
        return Some(word);
    }
    if flips == 0 {
        return None;
    }
    let p = columns::place_in(columns, s);
    if p < columns.len() {
        return Some(word.flipped_in(k, p));
    }
    None
}

// The first found with the first bad place as read, else with it turned.
#[tactic(auto, unfolding(crate::specs::BySyndrome::reach_by))]
pub fn reach(columns: &[u16], k: usize, flips: usize, word: Word, bad: &[usize]) -> Option<Word>
    requires k_in_bounds { (k ≤ length columns.now) × (length columns.now ≤ k + 16) × (k ≤ 128) }
    requires word_value { stray_in (length columns.now) k word ≡ false }
    requires bad_value { misnamed (length columns.now) bad.now ≡ false }
    ensures { result ≡ reach_by columns.now k flips word bad.now }
{
    let [p, rest @ ..] = bad else {
        return near(columns, k, flips, word);
    };
    if let Some(found) = reach(columns, k, flips, word, rest) {
        return Some(found);
    }
    reach(columns, k, flips, word.flipped_in(k, *p), rest)
}
