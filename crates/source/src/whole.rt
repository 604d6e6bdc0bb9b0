// R = (−1)^s × B × 16^(A − 64) / 2^24 as a whole number of at most 8,388,607 in magnitude. With B = 0 it is 0. Else A
// is from 65 to 75: with a lower one R is below 1 and with a higher one at least 16^6. For these B × 16^(A − 65) fits
// in 64 bits, and R is that many parts of 16^5.
ghost use Rattle.std.specs.Prelude.{◌≡◌, ◌^◌, ◌<◌, ◌≤◌};
ghost use Rattle.rules.specs.Bounds.{source_most};
ghost use Rattle.source.specs.Whole.{SaysWhole, the_whole_bad, whole_from, spelt as the_spelt, spelling_from};

use crate::large;
use rules::bounds::SOURCE_MOST;

// 16^5.
const PART: u64 = 1048576;

// How many parts of 16^5 R's size is; 1, no whole number, where R cannot be one within the bound.
fn parts(word: u32) -> u64
    ensures { SaysWhole word result }
{
    let a = word / 16777216 % 128;
    let b = word % 16777216;
    if b == 0 {
        return 0;
    }
    if a < 65 {
        return 1;
    }
    if 75 < a {
        return 1;
    }
    (b as u64) << (4 * (a - 65))
}

// Whether R is not whole or over its bound.
pub fn whole_bad(word: u32) -> bool
    ensures { result ≡ the_whole_bad word }
{
    let p = parts(word);
    (p % PART != 0) | ((SOURCE_MOST as u64) * PART < p)
}

// The whole number that R is, and 0 where it is none within the bound.
pub fn whole_of(word: u32) -> i32
    ensures { result ≡ whole_from word }
{
    if whole_bad(word) {
        return 0;
    }
    let size = (parts(word) / PART) as i32;
    if word < 2147483648 {
        return size;
    }
    -size
}

// A and B of a size from 1 to 8,388,607: each hex digit less is 1 less in A.
fn spelt(size: u32) -> u32
    requires { (1 ≤ size) × (size ≤ source_most) }
    ensures { (result ≡ the_spelt size) × (result < 2 ^ 31) }
{
    let mut a: u32 = 70;
    let mut b = size;
    while b < 1048576 {
        b *= 16;
        a -= 1;
    }
    a * 16777216 + b
}

// R's four octets for a whole number, "with leading hex digit not zero, and zero as 32 zero bits"; 0 too for a number
// over the bound.
pub fn spelling(z: i32) -> u32
    ensures { result ≡ spelling_from z }
{
    if large(z) {
        return 0;
    }
    if z < 0 {
        let size = -z;
        return 2147483648 + spelt(size as u32);
    }
    if 0 < z {
        return spelt(z as u32);
    }
    0
}
