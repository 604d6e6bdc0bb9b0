// A number of up to four octets, high octet first.
ghost use Rattle.std.specs.Prelude.{◌≡◌};
ghost use Rattle.packs.specs.Place.{number_fits, number_put};

use crate::words::{room, store};
use octets::offset;
use widths::below;

// The number x in c octets from octet k on, counted from 1, of what starts at place p. Where c is over 4, x has more
// bits or out is too short, nothing changes and the answer is false.
pub fn put_number(out: &mut [u8], p: usize, k: u8, c: u8, x: u32) -> bool
    ensures value { result ≡ number_fits out.old p k c x }
    ensures out_after { out.new ≡ number_put out.old p k c x }
{
    let j = offset(k);
    let w = c as usize;
    if (c <= 4) & room(out.len(), p, j + w) & below(x, w * 8) {
        store(out, p + j, w, x as u64);
        return true;
    }
    false
}
