// A bit of octets, and the ones among them: whole octets by the machine's count, eight at a time in the machine's own
// order, and the bits left over under a mask.
ghost use Rattle.std.specs.Prelude.{◌≡◌, cond, ◌+◌, ◌-◌, ◌*◌, ◌^◌, ◌<◌, ◌≤◌, length};
ghost use Rattle.bits.specs.Bits.{bits_in, count};

use crate::words::{leading, reversed8};
use octets::at;

// The ones of c octets from octet p on, all inside.
fn ones_inside(s: &[u8], p: usize, c: usize) -> u32
    requires { (p + c ≤ length s.now) × (c < 2 ^ 29) }
    ensures { result ≡ count (bits_in 8 s.now) (p * 8) (c * 8) }
{
    let mut total: u32 = 0;
    let eights = c / 8;
    for g in 0..eights {
        total += u64::count_ones(reversed8(s, p + g * 8));
    }
    for j in eights * 8..c {
        total += u8::count_ones(s[p + j]);
    }
    total
}

// The ones of c octets from octet p on: those past the end have none.
fn ones_whole(s: &[u8], p: usize, c: usize) -> u32
    requires { c < 2 ^ 29 }
    ensures { result ≡ count (bits_in 8 s.now) (p * 8) (c * 8) }
{
    if p < s.len() {
        let inside = s.len() - p;
        if c <= inside {
            return ones_inside(s, p, c);
        }
        return ones_inside(s, p, inside);
    }
    0
}

// The ones of 32 octets from octet p on, all inside.
fn ones_32(s: &[u8], p: usize) -> u32
    requires { p + 32 ≤ length s.now }
    ensures { result ≡ count (bits_in 8 s.now) (p * 8) 256 }
{
    u64::count_ones(reversed8(s, p))
        + u64::count_ones(reversed8(s, p + 8))
        + u64::count_ones(reversed8(s, p + 16))
        + u64::count_ones(reversed8(s, p + 24))
}

// The ones of the eight octets from octet k on, where they are wanted.
fn ones_wanted(s: &[u8], k: usize, wanted: bool) -> u32
    requires { k + 8 ≤ length s.now }
    ensures { result ≡ cond wanted (count (bits_in 8 s.now) (k * 8) 64) 0 }
{
    if wanted {
        return u64::count_ones(reversed8(s, k));
    }
    0
}

// How many of the n bits from octet p on are ones, up to 255 of them and 32 octets inside: by words, of which the last
// that is needed is cut.
fn ones_by_words(s: &[u8], p: usize, n: u32) -> u32
    requires { (p + 32 ≤ length s.now) × (0 < n) × (n ≤ 255) }
    ensures { result ≡ count (bits_in 8 s.now) (p * 8) n }
{
    let words = (n - 1) / 64;
    let last = u64::count_ones(leading(s, p + words as usize * 8, (n - words * 64) as usize));
    ones_wanted(s, p, 0 < words)
        + ones_wanted(s, p + 8, 1 < words)
        + ones_wanted(s, p + 16, 2 < words)
        + last
}

// How many of the n bits from octet p on are ones.
pub fn ones(s: &[u8], p: usize, n: u32) -> u32
    ensures { result ≡ count (bits_in 8 s.now) (p * 8) n }
{
    let whole = (n / 8) as usize;
    let mask: u32 = 256 - (1 << (8 - n % 8));
    ones_whole(s, p, whole) + u32::count_ones(at(s, p, whole) as u32 & mask)
}

// The same, without a loop where they are few, up to 255, and 32 octets are inside: what starts and ends a loop costs
// more than four words do.
pub fn ones_few(s: &[u8], p: usize, n: u32) -> u32
    ensures { result ≡ count (bits_in 8 s.now) (p * 8) n }
{
    if p < s.len() {
        if s.len() - p >= 32 {
            if n <= 255 {
                if 0 < n {
                    return ones_by_words(s, p, n);
                }
            }
        }
    }
    ones(s, p, n)
}

// How many of the 256 bits from octet p on are ones.
pub fn ones_256(s: &[u8], p: usize) -> u32
    ensures { result ≡ count (bits_in 8 s.now) (p * 8) 256 }
{
    if p < s.len() {
        if s.len() - p >= 32 {
            return ones_32(s, p);
        }
    }
    ones_whole(s, p, 32)
}

// Bit i from octet p on.
pub fn bit(s: &[u8], p: usize, i: u32) -> u32
    ensures { result ≡ bits_in 8 s.now (p * 8 + i) }
{
    (at(s, p, (i / 8) as usize) as u32 >> (7 - i % 8)) % 2
}
