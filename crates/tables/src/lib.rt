// Byte tables: what each value of a record's bytes, or of their halves, adds to its syndrome; and the syndrome by a look for each.
#![tactic(auto)]

ghost use Rattle.std.specs.Prelude.{◌≡◌, ◌++◌, ℕ, ◌+◌, ◌*◌, ◌/◌, ◌%◌, ◌^◌, ◌≤◌, ◌<◌, length, get_or, take, drop};
ghost use Rattle.std.specs.Int.Bits.{bit_xor};
ghost use Rattle.columns.specs.Mix.{column, mix};
ghost use Rattle.tables.specs.Tables.{up_to, byte_table, values_in, tables, tables_of, byte_says, lookups};

use record::CHECK;

// Half a byte has so many values, a whole one so many.
const HALF: usize = 16;

const WHOLE: usize = 256;

// The values in the table of a byte, by its halves or whole.
pub fn values(halves: bool) -> usize
    ensures { result ≡ values_in halves }
{
    if halves { HALF + HALF } else { WHOLE }
}

// A table of `size` values becomes one of twice as many: the upper half has one column more.
fn fill_bit(table: &mut [u16], size: usize, column: u16)
    requires { size + size ≤ length table.old }
    ensures { take (size + size) table.new
        ≡ take size table.old ++ up_to (λ (i : ℕ). bit_xor (get_or table.old i 0) column) size }
{
    for b in 0..size {
        table[size + b] = table[b] ^ column;
    }
}

// The values of as many bits as there are columns.
fn fill_values(table: &mut [u16], columns: &[u16])
    requires { (length columns.now ≤ 8) × (length table.old ≡ 2 ^ length columns.now) }
    ensures { table.new ≡ up_to (mix columns.now) (2 ^ length columns.now) }
{
    table[0] = 0;
    let mut size: usize = 1;
    for column in columns {
        fill_bit(table, size, *column);
        size += size;
    }
}

// The table of one byte, from its eight columns.
fn fill_eight(table: &mut [u16], eight: &[u16], halves: bool)
    requires { (length eight.now ≡ 8) × (length table.old ≡ values_in halves) }
    ensures { table.new ≡ byte_table halves eight.now }
{
    if halves {
        fill_values(&mut table[0..HALF], &eight[0..4]);
        fill_values(&mut table[HALF..32], &eight[4..8]);
    } else {
        fill_values(table, eight);
    }
}

// The eight columns from `at` on, 0 past the end.
fn copy_eight(columns: &[u16], at: usize) -> [u16; 8]
    requires { at + 8 < 2 ^ 64 }
    ensures { result ≡ up_to (λ (i : ℕ). column columns.now (at + i)) 8 }
{
    let mut eight = [0u16; 8];
    for i in 0..8 {
        eight[i] = columns.get(at + i).copied().unwrap_or(0);
    }
    eight
}

// The table of one byte, from the eight columns from `at` on: where all are there they are taken as they stand.
fn fill_byte(table: &mut [u16], columns: &[u16], at: usize, halves: bool)
    requires table_len { length table.old ≡ values_in halves }
    requires at_bound { at + 8 < 2 ^ 64 }
    ensures { table.new ≡ byte_table halves (drop at columns.now) }
{
    let end = at + 8;
    if end <= columns.len() {
        fill_eight(table, &columns[at..end], halves);
    } else {
        fill_eight(table, &copy_eight(columns, at), halves);
    }
}

// The tables of all bytes that there is room for; columns past the end of the list are 0.
fn fill(table: &mut [u16], columns: &[u16], halves: bool)
    requires { length table.old % values_in halves ≡ 0 }
    ensures { table.new ≡ tables halves columns.now (length table.old / values_in halves) }
{
    let size = values(halves);
    let n = table.len() / size;
    for j in 0..n {
        let a = size * j;
        let e = a + size;
        let at = 8 * j;
        fill_byte(&mut table[a..e], columns, at, halves);
    }
}

// The tables of a record with d bytes of data: those of its data from the first k columns, those of its check bits from the others.
pub fn fill_record(table: &mut [u16], columns: &[u16], k: usize, d: usize, halves: bool)
    requires k_in_bounds { k ≤ length columns.now }
    requires table_len { length table.old ≡ values_in halves * (d + 2) }
    ensures { table.new ≡ tables_of halves columns.now k d }
{
    let size = values(halves);
    let split = size * d;
    let end = split + size * CHECK;
    fill(&mut table[0..split], &columns[..k], halves);
    fill(&mut table[split..end], &columns[k..], halves);
}

// What a byte says in its table, which begins at `at`.
fn says(table: &[u16], at: usize, b: u8, halves: bool) -> u16
    requires { at + values_in halves ≤ length table.now }
    ensures { result ≡ byte_says halves table.now at b }
{
    if halves {
        let low = at + (b % 16) as usize;
        let high = at + HALF + (b / 16) as usize;
        table[low] ^ table[high]
    } else {
        table[at + usize::from(b)]
    }
}

// What the bytes say in their tables, all together.
pub fn looks(table: &[u16], bytes: &[u8], halves: bool) -> u16
    requires { values_in halves * length bytes.now ≤ length table.now }
    ensures { result ≡ lookups halves table.now bytes.now (length bytes.now) }
{
    let size = values(halves);
    let mut s: u16 = 0;
    for (j, byte) in bytes.iter().enumerate() {
        s ^= says(table, size * j, *byte, halves);
    }
    s
}
