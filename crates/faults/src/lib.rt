// What may be wrong at a place of a list of columns, and the first place where it is.
#![tactic(auto)]

ghost use Rattle.std.specs.Prelude.{◌≡◌, not, suc, ◌%◌, ◌^◌, ◌≤◌, ◌<◌, eqb, leb, length};
ghost use Rattle.std.specs.Int.Bits.{bit_xor};
ghost use Rattle.parity.specs.Odd.{odd_in};
ghost use Rattle.faults.specs.declared.Fault.TheVariants.{Again};
ghost use Rattle.faults.specs.Faults.{fault_at, found_past, some_in, InReach};

// What may be wrong at a place: 2^r or more; zero or equal to an earlier one; as a check column, a fault on the diagonal or before it, or
// on it or after it; even within the set of rows; not 0.
#[derive(Clone, Copy, PartialEq, Eq)]
pub enum Fault {
    Wide(usize),
    Again,
    NotLower,
    NotUpper,
    Even(u16),
    Full,
}

pub fn too_wide(c: u16, r: usize) -> bool
    requires { r ≤ 16 }
    ensures { result ≡ leb (2 ^ r) c }
{
    let limit = 1u32 << r;
    limit <= u32::from(c)
}

// Zero, or equal to an earlier column, be it a data or a check column.
fn again(columns: &[u16], i: usize) -> bool
    requires { i < length columns.now }
    ensures { result ≡ fault_at Again columns.now i }
{
    let c = columns[i];
    c == 0 || columns::place_in(columns, c) < i
}

// No one on the diagonal p, or a one in a row before it.
fn not_lower(c: u16, p: usize) -> bool
    requires { p < 16 }
    ensures { result ≡ not (eqb (bit_xor c (2 ^ p) % 2 ^ suc p) 0) }
{
    let unit = 1u32 << p;
    (u32::from(c) ^ unit) % (unit * 2) != 0
}

// No one on the diagonal p, or a one in a row after it.
fn not_upper(c: u16, p: usize) -> bool
    requires { p < 16 }
    ensures { result ≡ leb (2 ^ p) (bit_xor c (2 ^ p)) }
{
    let unit = 1u32 << p;
    unit <= u32::from(c) ^ unit
}

fn even_within(c: u16, rows: u16) -> bool
    ensures { result ≡ eqb (odd_in rows c) 0 }
{
    !parity::odd(c & rows)
}

// Whether place i has this fault.
fn fault_at(places: &[u16], fault: Fault, i: usize) -> bool
    requires i_in_bounds { i < length places.now }
    requires in_reach { InReach fault places.now }
    ensures { result ≡ fault_at fault places.now i }
{
    let c = places[i];
    match fault {
        Fault::Wide(r) => too_wide(c, r),
        Fault::Again => again(places, i),
        Fault::NotLower => not_lower(c, i),
        Fault::NotUpper => not_upper(c, i),
        Fault::Even(rows) => even_within(c, rows),
        Fault::Full => c != 0,
    }
}

// The first place from `from` on with this fault.
#[tactic(auto, using(crate::proofs::Firsts::first_here, crate::proofs::Firsts::first_step, crate::proofs::Firsts::first_end, crate::proofs::Firsts::found_at, crate::proofs::Firsts::found_none), unfolding(crate::specs::Faults::first_past))]
pub fn first(places: &[u16], fault: Fault, from: usize) -> Option<usize>
    requires from_in_bounds { from ≤ length places.now }
    requires in_reach { InReach fault places.now }
    ensures { result ≡ found_past fault places.now from }
{
    for i in from..places.len() {
        if fault_at(places, fault, i) {
            return Some(i);
        }
    }
    None
}

// Whether any place has this fault.
pub fn some(places: &[u16], fault: Fault) -> bool
    requires { InReach fault places.now }
    ensures { result ≡ some_in fault places.now }
{
    first(places, fault, 0).is_some()
}
