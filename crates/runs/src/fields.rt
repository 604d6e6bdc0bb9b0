// A number of up to 32 bits at any bit place. It touches at most five octets, which are read whole; past the end they
// read 0.
ghost use Rattle.std.specs.Prelude.{◌≡◌, ◌*◌, ◌^◌, ◌<◌, ◌≤◌};
ghost use Rattle.bits.specs.Bits.{bits_in, run};
ghost use Rattle.runs.specs.Take.{fetched};

use crate::words::{part, wide, word};
use octets::{at, four};

// The number that the five octets from octet k on make: all in one where they are inside, as they are but at the very
// end.
fn five(s: &[u8], k: usize) -> u64
    requires { k < 2 ^ 62 }
    ensures { result ≡ run (bits_in 8 s.now) (k * 8) 40 }
{
    if k + 5 <= s.len() {
        return word(s, k) * 256 + wide(s[k + 4]);
    }
    four(s, k, 1) as u64 * 256 + at(s, k, 4) as u64
}

// The number that the n bits from bit place `from` on make.
pub(crate) fn taken(s: &[u8], from: usize, n: usize) -> u32
    requires { n ≤ 32 }
    ensures { result ≡ run (bits_in 8 s.now) from n }
{
    let all = five(s, from / 8);
    part(all, 40 - from % 8 - n, n)
}

// The number that the n bits from bit place `from` on make, and 0 where n is over 32.
pub fn fetch(s: &[u8], from: u32, n: u8) -> u32
    ensures { result ≡ fetched s.now from n }
{
    if n <= 32 {
        return taken(s, from as usize, n as usize);
    }
    0
}
