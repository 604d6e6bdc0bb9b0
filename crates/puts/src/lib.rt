// Numbers of one to four octets, high octet first, and signed fields of two and three, put into lent octets at octet k
// of the section at place p. Every public function is total: a put that does not fit, by room or by its number, changes
// nothing and answers false.
#![tactic(auto)]

ghost use Rattle.std.specs.Prelude.{◌≡◌, cond, ◌+◌, ◌<◌, ◌≤◌, ltb, pos, nat_abs};
ghost use Rattle.std.specs.Int.Signed.{lt_z};
ghost use Rattle.rules.specs.Numbers.{sign, plain};
ghost use Rattle.puts.specs.Put.{put_fits, the_put_number, signed_fits, the_put_signed};

use packs::put_number;
use rules::Signed;

// The number x in a few octets.
fn put_few(out: &mut [u8], p: usize, k: u8, c: u8, x: u32) -> bool
    requires { c ≤ 4 }
    ensures value { result ≡ put_fits out.old p k c x }
    ensures out_after { out.new ≡ the_put_number out.old p k c x }
{
    put_number(out, p, k, c, x)
}

// The number x in octet k.
pub fn put_octet(out: &mut [u8], p: usize, k: u8, x: u8) -> bool
    ensures value { result ≡ put_fits out.old p k 1 x }
    ensures out_after { out.new ≡ the_put_number out.old p k 1 x }
{
    put_few(out, p, k, 1, x as u32)
}

// The number x in octets k and k + 1.
pub fn put_two(out: &mut [u8], p: usize, k: u8, x: u16) -> bool
    ensures value { result ≡ put_fits out.old p k 2 x }
    ensures out_after { out.new ≡ the_put_number out.old p k 2 x }
{
    put_few(out, p, k, 2, x as u32)
}

// The number x in octets k to k + 2.
pub fn put_three(out: &mut [u8], p: usize, k: u8, x: u32) -> bool
    ensures value { result ≡ put_fits out.old p k 3 x }
    ensures out_after { out.new ≡ the_put_number out.old p k 3 x }
{
    put_few(out, p, k, 3, x)
}

// The number x in octets k to k + 3.
pub fn put_four(out: &mut [u8], p: usize, k: u8, x: u32) -> bool
    ensures value { result ≡ put_fits out.old p k 4 x }
    ensures out_after { out.new ≡ the_put_number out.old p k 4 x }
{
    put_few(out, p, k, 4, x)
}

// Whether the magnitude of z is below half.
fn small(half: u32, z: i32) -> bool
    requires { (0 < half) × (half ≤ 8388608) }
    ensures { result ≡ ltb (nat_abs z) half }
{
    let h = half as i32;
    (-h < z) & (z < h)
}

// The number that stands for z, of a magnitude below half, where the sign bit is worth half: written back from the
// sign.
fn spell(half: u32, z: i32) -> u32
    requires half_bound { half ≤ 8388608 }
    requires z_bound { nat_abs z < half }
    ensures { result ≡ cond (lt_z z (pos 0)) (half + nat_abs z) (nat_abs z) }
{
    if z < 0 {
        let m = -z;
        return half + m as u32;
    }
    z as u32
}

// The signed number z in c octets, whose sign bit is worth half.
fn put_signed(out: &mut [u8], p: usize, k: u8, c: u8, half: u32, z: i32) -> bool
    requires c_nonzero { (0 < c) × (c ≤ 3) }
    requires half_value { (half ≡ sign c) × (0 < half) × (half ≤ 8388608) }
    ensures value { result ≡ signed_fits out.old p k c (plain z) }
    ensures out_after { out.new ≡ the_put_signed out.old p k c (plain z) }
{
    if small(half, z) {
        return put_few(out, p, k, c, spell(half, z));
    }
    false
}

// The signed field z in octets k and k + 1.
pub fn put_signed_two(out: &mut [u8], p: usize, k: u8, z: Signed) -> bool
    ensures value { result ≡ signed_fits out.old p k 2 z }
    ensures out_after { out.new ≡ the_put_signed out.old p k 2 z }
{
    put_signed(out, p, k, 2, 32768, z.value)
}

// The signed field z in octets k to k + 2.
pub fn put_signed_three(out: &mut [u8], p: usize, k: u8, z: Signed) -> bool
    ensures value { result ≡ signed_fits out.old p k 3 z }
    ensures out_after { out.new ≡ the_put_signed out.old p k 3 z }
{
    put_signed(out, p, k, 3, 8388608, z.value)
}
