// Pieces of text put into a lent one: each is put at a place and answers the place after it. Letters are octets.
ghost use Rattle.std.specs.Prelude.{◌≡◌, [], ◌∷◌, ◌+◌, ◌<◌, ◌≤◌, ◌^◌, nat_abs, length};
ghost use Rattle.rules.specs.Listing.{digit as the_digit, numeral as the_numeral, decimal as the_decimal};
ghost use Rattle.rules.specs.Listing.{decimal_signed};
ghost use Rattle.rules.specs.Listing.{hex_digits, ended};
ghost use Rattle.listing.specs.Text.{Wrote};

// One character put at a place; the answer is the place after it.
pub(crate) fn letter(text: &mut [u8], at: usize, x: u8) -> usize
    requires { at < length text.old }
    ensures { Wrote text.old text.new at result (x ∷ []) }
{
    text[at] = x;
    at + 1
}

// The characters of w put from a place on; the answer is the place after them.
pub(crate) fn word(text: &mut [u8], at: usize, w: &[u8]) -> usize
    requires { at + length w.now ≤ length text.old }
    ensures { Wrote text.old text.new at result w.now }
{
    for i in 0..w.len() {
        text[at + i] = w[i];
    }
    at + w.len()
}

// 0 to 9, then a to f.
fn digit(d: u64) -> u8
    requires { d < 16 }
    ensures { result ≡ the_digit d }
{
    if d < 10 { 48 + d as u8 } else { 87 + d as u8 }
}

// The c digits of n in a base, the highest first; power is that of the place before the digits that are left.
fn numeral(text: &mut [u8], at: usize, base: u64, c: usize, power: u64, n: u32) -> usize
    requires base_nonzero { 0 < base }
    requires base_bound { base ≤ 16 }
    requires power_value { power ≡ base ^ c }
    requires c_in_bounds { at + c ≤ length text.old }
    ensures { Wrote text.old text.new at result (the_numeral base c n) }
{
    let mut weight = power;
    for j in 0..c {
        weight /= base;
        text[at + j] = digit(n as u64 / weight % base);
    }
    at + c
}

// As many decimal digits as a number needs, at most ten.
pub(crate) fn decimal(text: &mut [u8], at: usize, n: u32) -> usize
    requires { at + 10 ≤ length text.old }
    ensures { Wrote text.old text.new at result (the_decimal n) }
{
    let mut power: u64 = 10;
    let mut k: usize = 0;
    while (k < 9) & (power <= n as u64) {
        power *= 10;
        k += 1;
    }
    numeral(text, at, 10, k + 1, power, n)
}

// A decimal and the letter after it.
pub(crate) fn number(text: &mut [u8], at: usize, n: u32, stop: u8) -> usize
    requires { at + 11 ≤ length text.old }
    ensures { (Wrote text.old text.new at result (ended (the_decimal n) stop)) × (result ≤ at + 11) }
{
    let next = decimal(text, at, n);
    letter(text, next, stop)
}

// How far a number is from zero.
fn magnitude(z: i32) -> u32
    ensures { result ≡ nat_abs z }
{
    if z < 0 {
        let m = -(z as i64);
        return m as u32;
    }
    z as u32
}

// A decimal with a sign where it is negative, and the letter after it.
pub(crate) fn signed(text: &mut [u8], at: usize, z: i32, stop: u8) -> usize
    requires { at + 12 ≤ length text.old }
    ensures { (Wrote text.old text.new at result (ended (decimal_signed z) stop))
        × (result ≤ at + 12) }
{
    if z < 0 {
        let next = letter(text, at, b'-');
        return number(text, next, magnitude(z), stop);
    }
    number(text, at, magnitude(z), stop)
}

// Eight hex digits and the letter after them.
pub(crate) fn hex(text: &mut [u8], at: usize, n: u32, stop: u8) -> usize
    requires { at + 9 ≤ length text.old }
    ensures { (Wrote text.old text.new at result (ended (hex_digits n) stop)) × (result ≤ at + 9) }
{
    let next = numeral(text, at, 16, 8, 4294967296, n);
    letter(text, next, stop)
}
