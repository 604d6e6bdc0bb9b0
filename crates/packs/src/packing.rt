// Numbers of up to 24 bits each packed one after another into octets from their start on. Up to eight bits wide, eight
// numbers are stored at once. Wider, four octets are stored at each one's place, and the four after the data, which the
// last stores may touch, are read first and put back.
ghost use Rattle.std.specs.Prelude.{ℕ, ◌≡◌, ◌+◌, ◌*◌, ◌/◌, ◌^◌, ◌<◌, ◌≤◌, length};
ghost use Rattle.bits.specs.Bits.{bits_in, run, octets_for, packed_into, Wide};
ghost use Rattle.packs.specs.Cover.{over, Put};
ghost use Rattle.packs.specs.Pack.{pack_fits, packed, PacksOn};

use crate::fields::placed;
use crate::words::store;
use octets::four;
use widths::all_below;

// Up to eight numbers more, from number i on, which starts octet k: those before it are put.
fn pack_some(vs: &[u32], n: usize, out: &mut [u8], k: usize, i: usize, c: usize)
    requires n_bound { n ≤ 24 }
    requires wide { Wide n vs.now }
    requires n_in_bounds { length vs.now * n / 8 + 4 ≤ length out.old }
    requires k_value { (k * 8 ≡ i * n) × (i + c ≤ length vs.now) × (c ≤ 8) }
    ensures { Put vs.now n out.old i out.new (i + c) }
{
    let mut all: u64 = 0;
    let mut p: usize = 0;
    for j in 0..c {
        all = (all << n) + vs[i + j] as u64;
        store(out, k + p / 8, 4, (all << (32 - p % 8 - n)) % 4294967296);
        p += n;
    }
}

// Eight numbers fill n octets, and each eight start anew.
fn pack_over(vs: &[u32], n: usize, out: &mut [u8])
    requires n_bound { n ≤ 24 }
    requires wide { Wide n vs.now }
    requires n_in_bounds { length vs.now * n / 8 + 4 ≤ length out.old }
    ensures { out.new ≡ over n vs.now (length vs.now) out.old }
{
    let eights = vs.len() / 8;
    for g in 0..eights {
        pack_some(vs, n, out, g * n, g * 8, 8);
    }
    pack_some(vs, n, out, eights * n, eights * 8, vs.len() % 8);
}

// One by one, from number `from` on, the ones before it being packed.
fn pack_rest(vs: &[u32], n: usize, out: &mut [u8], from: usize)
    requires n_bound { n ≤ 32 }
    requires wide { Wide n vs.now }
    requires n_len_bound { length vs.now * n < 2 ^ 64 }
    requires n_in_bounds { octets_for (length vs.now * n) ≤ length out.old }
    requires from_in_bounds { from ≤ length vs.now }
    ensures { PacksOn n from vs.now out.old out.new }
{
    for i in from..vs.len() {
        placed(out, i * n, n, vs[i]);
    }
}

// Eight numbers of up to eight bits each, from number i on, as one. It multiplies by 2^n, written so that the compiler
// does too: a shift by a width that is not known takes the machine longer.
fn eight(vs: &[u32], i: usize, n: usize) -> u64
    requires n_bound { n ≤ 8 }
    requires wide { Wide n vs.now }
    requires i_in_bounds { i + 8 ≤ length vs.now }
    ensures { result ≡ run (bits_in n vs.now) (i * n) (8 * n) }
{
    let power: u64 = (255 >> (8 - n)) + 1;
    let mut all: u64 = 0;
    for v in &vs[i..i + 8] {
        all = all * power + *v as u64;
    }
    all
}

// How many eights, of n octets each, start with eight octets or more left of the data that ends at octet `end`.
fn eights_ahead(end: usize, n: usize) -> usize
    requires { 8 ≤ end → 0 < n }
    ensures { (g : ℕ) → g < result → g * n + 8 ≤ end }
{
    if end < 8 { 0 } else { (end - 8) / n + 1 }
}

// Numbers of up to eight bits: eight of them are n octets. While eight octets more lie in the data, so many are stored,
// and those past the n stored over later.
fn pack_small(vs: &[u32], n: usize, out: &mut [u8])
    requires n_bound { n ≤ 8 }
    requires wide { Wide n vs.now }
    requires n_len_bound { length vs.now * n + 7 < 2 ^ 64 }
    requires n_in_bounds { octets_for (length vs.now * n) ≤ length out.old }
    ensures { out.new ≡ packed_into n vs.now out.old }
{
    let eights = vs.len() / 8;
    let ahead = eights_ahead((vs.len() * n + 7) / 8, n);
    for g in 0..ahead {
        store(out, g * n, 8, eight(vs, g * 8, n) << (64 - 8 * n));
    }
    for g in ahead..eights {
        store(out, g * n, n, eight(vs, g * 8, n));
    }
    pack_rest(vs, n, out, eights * 8);
}

// Over what follows the data where that is four octets or more, which are then put back.
fn pack_all(vs: &[u32], n: usize, out: &mut [u8])
    requires n_bound { n ≤ 24 }
    requires wide { Wide n vs.now }
    requires n_len_bound { length vs.now * n + 7 < 2 ^ 64 }
    requires n_in_bounds { octets_for (length vs.now * n) ≤ length out.old }
    ensures { out.new ≡ packed_into n vs.now out.old }
{
    let end = (vs.len() * n + 7) / 8;
    if n <= 8 {
        pack_small(vs, n, out);
    } else if out.len() - end >= 4 {
        let after = four(out, end, 1) as u64;
        pack_over(vs, n, out);
        store(out, end, 4, after);
    } else {
        pack_rest(vs, n, out, 0);
    }
}

// Whether the numbers and their width can be packed into room octets.
fn packable(vs: &[u32], n: u8, room: usize) -> bool
    ensures { result ≡ pack_fits n vs.now room }
{
    if (n <= 24) & (vs.len() < 4294967296) {
        return all_below(vs, n) & ((vs.len() * n as usize + 7) / 8 <= room);
    }
    false
}

// The numbers of n bits each in vs are put one after another from the start of out, and zeros to the end of the octet.
// Where n is over 24, a number has more bits, there are 2^32 or more of them or out is too short, nothing changes and
// the answer is false.
pub fn pack(vs: &[u32], n: u8, out: &mut [u8]) -> bool
    ensures value { result ≡ pack_fits n vs.now (length out.old) }
    ensures out_after { out.new ≡ packed n vs.now out.old }
{
    if packable(vs, n, out.len()) {
        pack_all(vs, n as usize, out);
        return true;
    }
    false
}
