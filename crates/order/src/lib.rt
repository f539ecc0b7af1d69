// The maker's order: the columns with an odd count of ones from three on, the fewer ones first, put into places.
#![tactic(auto)]

ghost use Rattle.std.specs.Prelude.{◌≡◌, ◌+◌, ◌≤◌, min, length};
ghost use Rattle.order.specs.Order.{with_ones, in_order, put_from};

// The numbers below 2^r with c ones, the smaller first, into the places from `at` on until they are full; where the next one goes.
fn put_ones(places: &mut [u16], at: usize, r: usize, c: u32) -> usize
    requires { (at ≤ length places.old) × (r ≤ 16) }
    ensures value { result ≡ min (length places.old) (at + length (with_ones r c)) }
    ensures places_after { places.new ≡ put_from places.old at (with_ones r c) }
{
    let limit: u32 = 1u32 << r;
    let mut i = at;
    for x in 0..limit {
        if i >= places.len() {
            return i;
        }
        let column = x as u16;
        if parity::weight(column) == c {
            places[i] = column;
            i += 1;
        }
    }
    i
}

// Three ones first, then five and so on, until the places are full.
pub fn put_columns(places: &mut [u16], r: usize)
    requires { r ≤ 16 }
    ensures { places.new ≡ put_from places.old 0 (in_order r) }
{
    let mut i = 0;
    for c in (3..=r).step_by(2) {
        if i >= places.len() {
            return;
        }
        i = put_ones(places, i, r, c as u32);
    }
}
