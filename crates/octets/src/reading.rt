// Numbers of one to four octets, high octet first, and signed fields of two and three. All are total: past the end an
// octet reads 0.
ghost use Rattle.std.specs.Prelude.{◌≡◌, ◌+◌, ◌-◌, ◌*◌, ◌^◌, ◌<◌, ◌≤◌, get_or, cond, ltb, pos, neg_ℤ};
ghost use Rattle.bits.specs.Bits.{run, bits_in};
ghost use Rattle.rules.specs.Numbers.{octet as the_octet, plain as the_plain, signed as the_signed};

use rules::Signed;

// The octet at place p + j, counted from 0.
pub fn at(s: &[u8], p: usize, j: usize) -> u8
    ensures { result ≡ get_or s.now (p + j) 0 }
{
    if p < s.len() {
        if j < s.len() - p {
            return s[p + j];
        }
    }
    0
}

// How far octet k, counted from 1, lies from a section's start.
pub fn offset(k: u8) -> usize
    ensures { result ≡ k - 1 }
{
    if k == 0 { 0 } else { k as usize - 1 }
}

// Octet k, counted from 1, of the section at place p.
pub fn octet(s: &[u8], p: usize, k: u8) -> u8
    ensures { result ≡ the_octet s.now p k }
{
    at(s, p, offset(k))
}

// The number in the C octets from octet k on. C is a constant, so that the compiler writes the few octets out.
fn number<const C: usize>(s: &[u8], p: usize, k: u8) -> u32
    requires few { C ≤ 4 }
    ensures value { result ≡ run (bits_in 8 s.now) ((p + (k - 1)) * 8) (C * 8) }
    ensures fits { result < 2 ^ (C * 8) }
{
    let mut x: u32 = 0;
    for j in 0..C {
        x = x * 256 + at(s, p, offset(k) + j) as u32;
    }
    x
}

// The number in octets k and k + 1.
pub fn two(s: &[u8], p: usize, k: u8) -> u16
    ensures { result ≡ run (bits_in 8 s.now) ((p + (k - 1)) * 8) 16 }
{
    number::<2>(s, p, k) as u16
}

// The number in octets k to k + 2.
pub fn three(s: &[u8], p: usize, k: u8) -> u32
    ensures { result ≡ run (bits_in 8 s.now) ((p + (k - 1)) * 8) 24 }
{
    number::<3>(s, p, k)
}

// The number in octets k to k + 3.
pub fn four(s: &[u8], p: usize, k: u8) -> u32
    ensures { result ≡ run (bits_in 8 s.now) ((p + (k - 1)) * 8) 32 }
{
    number::<4>(s, p, k)
}

// A number whose sign bit is worth half, and the rest a magnitude.
fn signed(half: u32, v: u32) -> i32
    requires half_bound { half ≤ 8388608 }
    requires v_bound { v < 16777216 }
    ensures { result ≡ cond (ltb v half) (pos v) (neg_ℤ (pos (v - half))) }
{
    if v < half {
        return v as i32;
    }
    -((v - half) as i32)
}

// The signed field of a value.
pub fn plain(value: i32) -> Signed
    ensures { result ≡ the_plain value }
{
    Signed { value }
}

// The signed field in octets k and k + 1.
pub fn signed_two(s: &[u8], p: usize, k: u8) -> Signed
    ensures { result ≡ the_signed 2 (run (bits_in 8 s.now) ((p + (k - 1)) * 8) 16) }
{
    plain(signed(32768, two(s, p, k) as u32))
}

// The signed field in octets k to k + 2.
pub fn signed_three(s: &[u8], p: usize, k: u8) -> Signed
    ensures { result ≡ the_signed 3 (run (bits_in 8 s.now) ((p + (k - 1)) * 8) 24) }
{
    plain(signed(8388608, three(s, p, k)))
}
