// The list of explanations by the syndrome, over any list of columns.
#![tactic(auto)]

ghost use Rattle.std.specs.Prelude.{◌≡◌, ◌*◌, ◌≤◌, ◌<◌, length};
ghost use Rattle.record.specs.Run.{over};
ghost use Rattle.listing.specs.Sets.{bytes_for, written};
ghost use Rattle.listing.specs.BySyndrome.{below, partner_of, pairs_by, by_syndrome};

// The place above p whose column makes s with that of p.
fn partner(columns: &[u16], s: u16, p: usize) -> Option<usize>
    requires { p < length columns.now }
    ensures { result ≡ below (length columns.now) (partner_of columns.now s p) }
{
    let from = p + 1;
    let wanted = s ^ columns[p];
    let q = from + columns::place_in(&columns[from..], wanted);
    (q < columns.len()).then_some(q)
}

// How many pairs make s.
fn count_pairs(columns: &[u16], s: u16) -> usize
    ensures { result ≡ length (pairs_by columns.now s) }
{
    let mut count = 0;
    for p in 0..columns.len() {
        if partner(columns, s, p).is_some() {
            count += 1;
        }
    }
    count
}

// How many entries the list has.
#[tactic(auto, unfolding(crate::specs::BySyndrome::by_syndrome))]
fn count_entries(columns: &[u16], s: u16, limit: usize) -> usize
    ensures { result ≡ length (by_syndrome columns.now s limit) }
{
    if s == 0 {
        return 1;
    }
    if limit == 0 {
        return 0;
    }
    if columns::place_in(columns, s) < columns.len() {
        return 1;
    }
    if limit == 1 {
        return 0;
    }
    count_pairs(columns, s)
}

// The pairs, in the first bytes of the list. `at` counts by hand: not each place has a pair, so the bytes go at a pace of their own.
fn put_pairs(columns: &[u16], s: u16, list: &mut [u8])
    requires { (length columns.now ≤ 255) × (2 * length (pairs_by columns.now s) ≤ length list.old) }
    ensures { list.new ≡ over (bytes_for (pairs_by columns.now s)) list.old }
{
    let mut at = 0;
    for p in 0..columns.len() {
        if let Some(q) = partner(columns, s, p) {
            list[at] = p as u8;
            list[at + 1] = q as u8;
            at += 2;
        }
    }
}

// The whole list, in the first bytes.
#[tactic(auto, using(crate::proofs::Walk::put_one), unfolding(crate::specs::BySyndrome::by_syndrome, crate::specs::Sets::bytes_for))]
fn put_entries(columns: &[u16], s: u16, limit: usize, list: &mut [u8])
    requires { (length columns.now ≤ 255) × (2 * length (by_syndrome columns.now s limit) ≤ length list.old) }
    ensures { list.new ≡ over (bytes_for (by_syndrome columns.now s limit)) list.old }
{
    if s == 0 {
        list[0] = 255;
        list[1] = 255;
        return;
    }
    if limit == 0 {
        return;
    }
    let place = columns::place_in(columns, s);
    if place < columns.len() {
        list[0] = place as u8;
        list[1] = 255;
        return;
    }
    if limit == 1 {
        return;
    }
    put_pairs(columns, s, list);
}

// How many entries the list has; it is written where there is room for all of it, and else not a byte is.
#[tactic(auto, unfolding(crate::specs::Sets::written))]
pub fn put_list(columns: &[u16], s: u16, limit: usize, list: &mut [u8]) -> usize
    requires { length columns.now ≤ 255 }
    ensures value { result ≡ length (by_syndrome columns.now s limit) }
    ensures list_after { list.new ≡ written (by_syndrome columns.now s limit) list.old }
{
    let count = count_entries(columns, s, limit);
    if count <= list.len() / 2 {
        put_entries(columns, s, limit, list);
    }
    count
}
