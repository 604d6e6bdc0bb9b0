// A number of up to 32 bits put at any bit place.
ghost use Rattle.std.specs.Prelude.{◌≡◌, ◌+◌, ◌^◌, ◌<◌, ◌≤◌, length};
ghost use Rattle.bits.specs.Bits.{octets_for, put_at};
ghost use Rattle.packs.specs.Place.{bits_fit, the_put_bits};

use crate::words::store;
use octets::at;
use widths::below;

// The n bits from bit place `from` on become v, and the bits after them zero to the end of the octet.
pub(crate) fn placed(out: &mut [u8], from: usize, n: usize, v: u32)
    requires n_bound { n ≤ 32 }
    requires v_bound { v < 2 ^ n }
    requires n_in_bounds { octets_for (from + n) ≤ length out.old }
    ensures { out.new ≡ put_at out.old from n v }
{
    let skip = from % 8;
    let c = (skip + n + 7) / 8;
    let kept = (at(out, from / 8, 0) as u64) >> (8 - skip);
    let all = ((kept << n) + v as u64) << (c * 8 - skip - n);
    store(out, from / 8, c, all);
}

// The n bits from bit place `from` on become v, and the bits after them zero to the end of the octet. Where n is over
// 32, v has more bits or out is too short, nothing changes and the answer is false.
pub fn put_bits(out: &mut [u8], from: u32, n: u8, v: u32) -> bool
    ensures value { result ≡ bits_fit (length out.old) from n v }
    ensures out_after { out.new ≡ the_put_bits out.old from n v }
{
    let ends = (from as usize + n as usize + 7) / 8;
    if (n <= 32) & below(v, n as usize) & (ends <= out.len()) {
        placed(out, from as usize, n as usize, v);
        return true;
    }
    false
}
