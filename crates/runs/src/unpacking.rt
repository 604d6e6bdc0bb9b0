// Numbers of up to 24 bits each, one after another, taken out of octets into a list: eight a turn where four octets can
// be read at each one's place, as in a message, whose end follows its data; one by one elsewhere. The octets that a
// value touches are read once, and with them the values beside it: eight from four octets or from eight, where they
// stand in so many, and else two from eight.
ghost use Rattle.std.specs.Prelude.{◌≡◌, ◌++◌, ◌+◌, ◌*◌, ◌/◌, ◌%◌, ◌^◌, ◌<◌, ◌≤◌, length, drop};
ghost use Rattle.bits.specs.Bits.{bits_in, run, runs};
ghost use Rattle.runs.specs.Take.{unpack_fits, unpacked};

use crate::fields::taken;
use crate::words::{leading, part, word};

// An octet, to be part of a value.
fn low(x: u8) -> u32
    ensures { (result ≡ x) × (result < 256) }
{
    x as u32
}

// The number that n bits make, skip bits after the start of octet k. Four octets are read, with no test.
fn value(s: &[u8], k: usize, skip: usize, n: usize) -> u32
    requires k_in_bounds { k + 4 ≤ length s.now }
    requires n_bound { skip + n ≤ 32 }
    ensures { result ≡ run (bits_in 8 s.now) (k * 8 + skip) n }
{
    part(word(s, k), 32 - skip - n, n)
}

// The number that the skip bits from octet k on make with the eight values of n bits after them: out of four octets
// where these hold it, and else out of eight.
fn eight_at(s: &[u8], k: usize, skip: usize, n: usize) -> u64
    requires skip_bound { (skip < 8) × (skip + n * 8 ≤ 64) }
    requires n_in_bounds { k + n + 4 ≤ length s.now }
    ensures { result ≡ run (bits_in 8 s.now) (k * 8) (skip + n * 8) }
{
    let bits = skip + n * 8;
    if bits <= 32 {
        return word(s, k) >> (32 - bits);
    }
    leading(s, k, bits)
}

// Where eight values stand in eight octets: these are read once for each eight. Eight values take n octets, so each
// turn starts as far into an octet as the first. How many values are taken, all but seven at most.
fn unpack_eights(s: &[u8], at: usize, n: usize, out: &mut [u32], m: usize) -> usize
    requires n_bound { at % 8 + n * 8 ≤ 64 }
    requires n_in_bounds { (at + m * n) / 8 + 4 ≤ length s.now }
    requires m_in_bounds { m ≤ length out.old }
    ensures { (result ≤ m)
        × (out.new ≡ runs (bits_in 8 s.now) at n result ++ drop result out.old) }
{
    let skip = at % 8;
    let eights = m / 8;
    for g in 0..eights {
        let k = at / 8 + g * n;
        let w = eight_at(s, k, skip, n);
        let mut up = n * 8;
        for j in 0..8 {
            up -= n;
            out[g * 8 + j] = part(w, up, n);
        }
    }
    eights * 8
}

// Where they do not: the eight octets at a value's place are read once, for that value and the next. Eight more values
// follow each eight, so that these octets are inside. How many values are taken, all but fifteen at most.
fn unpack_pairs(s: &[u8], at: usize, n: usize, out: &mut [u32], m: usize) -> usize
    requires le_n { (8 ≤ n) × (n ≤ 24) }
    requires n_in_bounds { (at + m * n) / 8 + 4 ≤ length s.now }
    requires m_in_bounds { m ≤ length out.old }
    ensures { (result ≤ m)
        × (out.new ≡ runs (bits_in 8 s.now) at n result ++ drop result out.old) }
{
    let eights = (m / 8).saturating_sub(1);
    for g in 0..eights {
        let k = at / 8 + g * n;
        let mut p = at % 8;
        for j in 0..4 {
            let w = leading(s, k + p / 8, p % 8 + n * 2);
            out[g * 8 + j * 2] = part(w, n, n);
            out[g * 8 + j * 2 + 1] = part(w, 0, n);
            p += n * 2;
        }
    }
    eights * 8
}

// Most of the values, the way that their width and place allow; how many.
fn unpack_most(s: &[u8], at: usize, n: usize, out: &mut [u32], m: usize) -> usize
    requires n_bound { n ≤ 24 }
    requires n_in_bounds { (at + m * n) / 8 + 4 ≤ length s.now }
    requires m_in_bounds { m ≤ length out.old }
    ensures { (result ≤ m)
        × (out.new ≡ runs (bits_in 8 s.now) at n result ++ drop result out.old) }
{
    if at % 8 + n * 8 <= 64 {
        return unpack_eights(s, at, n, out, m);
    }
    unpack_pairs(s, at, n, out, m)
}

// Where four octets can be read at each value's place: most of the values many at a time, and the few left one by one.
fn unpack_inside(s: &[u8], at: usize, n: usize, out: &mut [u32], m: usize)
    requires n_bound { n ≤ 24 }
    requires n_in_bounds { (at + m * n) / 8 + 4 ≤ length s.now }
    requires n_bound_2 { at + m * n < 2 ^ 60 }
    requires m_in_bounds { m ≤ length out.old }
    ensures { out.new ≡ runs (bits_in 8 s.now) at n m ++ drop m out.old }
{
    let first = unpack_most(s, at, n, out, m);
    for i in first..m {
        let place = at + i * n;
        out[i] = value(s, place / 8, place % 8, n);
    }
}

// Anywhere, one by one.
fn unpack_each(s: &[u8], at: usize, n: usize, out: &mut [u32], m: usize)
    requires n_bound { n ≤ 24 }
    requires n_bound_2 { at + m * n < 2 ^ 64 }
    requires m_in_bounds { m ≤ length out.old }
    ensures { out.new ≡ runs (bits_in 8 s.now) at n m ++ drop m out.old }
{
    for i in 0..m {
        out[i] = taken(s, at + i * n, n);
    }
}

// Values of C whole octets each, from octet k on. C is a constant, so that the compiler makes a loop of its own of
// each.
fn unpack_octets<const C: usize>(s: &[u8], k: usize, out: &mut [u32], m: usize)
    requires few { C ≤ 3 }
    requires m_in_bounds { k + m * C ≤ length s.now }
    requires m_in_bounds_2 { m ≤ length out.old }
    ensures { out.new ≡ runs (bits_in 8 s.now) (k * 8) (C * 8) m ++ drop m out.old }
{
    for i in 0..m {
        let mut x: u32 = 0;
        for j in 0..C {
            x = x * 256 + low(s[k + i * C + j]);
        }
        out[i] = x;
    }
}

// The way that the width and the place allow.
fn unpack_all(s: &[u8], at: usize, n: usize, out: &mut [u32], m: usize)
    requires n_bound { n ≤ 24 }
    requires n_bound_2 { at + m * n < 2 ^ 60 }
    requires m_in_bounds { m ≤ length out.old }
    ensures { out.new ≡ runs (bits_in 8 s.now) at n m ++ drop m out.old }
{
    if (at + m * n) / 8 + 4 > s.len() {
        unpack_each(s, at, n, out, m);
    } else if (n == 8) & (at % 8 == 0) {
        unpack_octets::<1>(s, at / 8, out, m);
    } else if (n == 16) & (at % 8 == 0) {
        unpack_octets::<2>(s, at / 8, out, m);
    } else {
        unpack_inside(s, at, n, out, m);
    }
}

// The first m elements of out become the m numbers of n bits each that stand one after another from bit place `at` on.
// Where n is over 24 or out is shorter than m, nothing changes and the answer is false.
pub fn unpack(s: &[u8], at: u32, n: u8, out: &mut [u32], m: u32) -> bool
    ensures value { result ≡ unpack_fits n m (length out.old) }
    ensures out_after { out.new ≡ unpacked s.now at n m out.old }
{
    if (n <= 24) & (m as usize <= out.len()) {
        unpack_all(s, at as usize, n as usize, out, m as usize);
        return true;
    }
    false
}
