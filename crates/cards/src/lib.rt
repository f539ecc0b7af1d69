// The cards of a code, and the search for the first weak one.
#![tactic(auto)]

ghost use Rattle.std.specs.Prelude.{◌≡◌, ◌+◌, ◌≤◌, ◌<◌, length};
ghost use Rattle.cards.specs.Cards.{cards_in, cut, all_cards, weak_mask, weak_mask_in, weak_card_in};

// A weak card: its number, and its smallest mask that breaks the rule.
#[derive(Clone, Copy)]
pub struct Weak {
    pub card: usize,
    pub mask: usize,
}

// Whether the places of a card that a mask names break the rule.
#[tactic(auto, unfolding(crate::specs::Cards::weak_mask))]
fn weak_mask(columns: &[u16], card: &[u16], mask: u16) -> bool
    ensures { result ≡ weak_mask columns.now card.now mask }
{
    if parity::weight(mask) < 2 {
        return false;
    }
    let s = columns::mixed(card, mask as u64);
    s == 0 || columns::place_in(columns, s) < columns.len()
}

// A card with its smallest mask that breaks the rule, where it has one; `number` is the card's.
fn weak_mask_in(columns: &[u16], card: &[u16], number: usize) -> Option<Weak>
    requires { length card.now ≤ 8 }
    ensures { result ≡ weak_mask_in columns.now card.now number }
{
    for mask in 0..1u16 << card.len() {
        if weak_mask(columns, card, mask) {
            return Some(Weak {
                card: number,
                mask: mask as usize,
            });
        }
    }
    None
}

// How many cards of b a number of places takes: `div_ceil`, which the library lacks.
fn cards_in(b: usize, places: usize) -> usize
    requires { (1 ≤ b) × (places + b < 65536) }
    ensures { result ≡ cards_in b places }
{
    (places + (b - 1)) / b
}

// The first weak card of a part of the columns, whose cards are numbered from `first` on, with its smallest mask. The last may be short.
// The number counts by hand: `enumerate` counts from 0, and would add `first` to each.
fn weak_card_in(columns: &[u16], part: &[u16], b: usize, first: usize) -> Option<Weak>
    requires { (1 ≤ b) × (b ≤ 8) × (first + length part.now < 65536) }
    ensures { result ≡ weak_card_in columns.now first (cut b 0 part.now) }
{
    let mut number = first;
    for card in part.chunks(b) {
        if let Some(weak) = weak_mask_in(columns, card, number) {
            return Some(weak);
        }
        number += 1;
    }
    None
}

// The first weak card of a code with k data places: its data cards, then its check cards, whose numbers run on.
pub fn first_weak(columns: &[u16], k: usize, b: usize) -> Option<Weak>
    requires { (1 ≤ b) × (b ≤ 8) × (k ≤ length columns.now) × (length columns.now ≤ 1024) }
    ensures { result ≡ weak_card_in columns.now 0 (all_cards b k columns.now) }
{
    if let Some(weak) = weak_card_in(columns, &columns[..k], b, 0) {
        return Some(weak);
    }
    weak_card_in(columns, &columns[k..], b, cards_in(b, k))
}
