// Values to their points through a bitmap, the last first.
ghost use Rattle.std.specs.Prelude.{◌≡◌, ◌+◌, ◌-◌, ◌*◌, ◌<◌, ◌≤◌, length, drop, get_or, set, ◌++◌};
ghost use Rattle.bits.specs.Bits.{bit_of, bits_in, count};
ghost use Rattle.bits.specs.Tables.{tab};
ghost use Rattle.rules.specs.Points.{value_at};
ghost use Rattle.field.specs.Down.{Settles};

// Bit j of an octet, the highest being bit 0.
fn bit(b: u8, j: usize) -> u32
    requires { j < 8 }
    ensures { (result ≡ bit_of 8 b j) × (result < 2) }
{
    ((b >> (7 - j)) % 2) as u32
}

// v where k is 1, and 0 where it is 0.
fn times(v: u32, k: u32) -> u32
    requires { k < 2 }
    ensures { result ≡ v * k }
{
    v * k
}

// Point i, whose bit is k, gets the last of d values, or 0 where it is absent; how many values are left.
fn settle(values: &mut [u32], i: usize, d: usize, k: u32) -> usize
    requires k_bound { (k < 2) × ((k ≤ d) × (d - k ≤ i)) }
    requires i_in_bounds { i < length values.old }
    ensures value { result ≡ d - k }
    ensures values_after { values.new ≡ set values.old i (get_or values.old (d - k) 0 * k) }
{
    let c = d - k as usize;
    values[i] = times(values[c], k);
    c
}

// The eight points of octet g of the bitmap, from the last to the first; c values stand before them and with them.
// Octets that are all absent or all present need no bit of it.
fn spread_octet(bitmap: &[u8], values: &mut [u32], n: usize, g: usize, c: usize) -> usize
    requires c_value { c ≡ count (bits_in 8 bitmap.now) 0 (g * 8 + 8) }
    requires g_in_bounds { g < length bitmap.now }
    requires g_bound { g * 8 + 8 ≤ n }
    requires n_in_bounds { n ≤ length values.old }
    ensures { (result ≡ count (bits_in 8 bitmap.now) 0 (g * 8))
        × Settles (bits_in 8 bitmap.now) n values.old values.new g }
{
    let b = bitmap[g];
    let mut d = c;
    if b == 0 {
        for j in (0..8).rev() {
            d = settle(values, g * 8 + j, d, 0);
        }
    } else if b == 255 {
        for j in (0..8).rev() {
            d = settle(values, g * 8 + j, d, 1);
        }
    } else {
        for j in (0..8).rev() {
            d = settle(values, g * 8 + j, d, bit(b, j));
        }
    }
    d
}

// The first m values are those at the present ones of n points, in order. Each goes to its point, the last first, and
// absent points become 0.
pub(crate) fn spread(bitmap: &[u8], values: &mut [u32], n: usize, m: usize)
    requires m_value { m ≡ count (bits_in 8 bitmap.now) 0 n }
    requires n_in_bounds { n ≤ length bitmap.now * 8 }
    requires n_in_bounds_2 { n ≤ length values.old }
    ensures { values.new ≡
        tab (value_at (bits_in 8 bitmap.now) values.old) n ++ drop n values.old }
{
    let whole = n / 8;
    let mut c = m;
    for i in (whole * 8..n).rev() {
        c = settle(values, i, c, bit(bitmap[i / 8], i % 8));
    }
    for g in (0..whole).rev() {
        c = spread_octet(bitmap, values, n, g, c);
    }
}
