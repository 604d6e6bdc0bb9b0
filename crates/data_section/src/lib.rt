// The data section: how its values are packed and what they stand for, and refusals 11 and 12. All total.
#![tactic(auto)]

ghost use Rattle.std.specs.Prelude.{◌≡◌};
ghost use Rattle.rules.specs.Table.{any_of};
ghost use Rattle.rules.specs.Values.{the_packing_at, scale_at, packing_faults, the_length_bad};

use choices::less;
use octets::{four, octet, signed_two};
use rules::bounds::BITS_MOST;
use rules::{Packing, Part, Scale};

// "octet 4 high half flags, low half unused bits; .. N in 11", of the section at place b.
pub fn packing_at(s: &[u8], b: usize) -> Packing
    ensures { result ≡ the_packing_at s.now b }
{
    Packing {
        flags: octet(s, b, 4) / 16,
        bits: octet(s, b, 11),
    }
}

// "E 5-6; reference R 7-10", of the section at place b.
pub fn scale_at(s: &[u8], b: usize) -> Scale
    ensures { result ≡ scale_at s.now b }
{
    Scale {
        e: signed_two(s, b, 5),
        r: four(s, b, 7),
    }
}

// Refusal 11: of the four flags bit 3, worth 2, is carried.
pub fn packing_bad(p: Packing) -> bool
    ensures { result ≡ any_of (packing_faults p) }
{
    !((p.flags == 0) | (p.flags == 2)) | (BITS_MOST < p.bits)
}

// Refusal 12: "With m present points, 8 × (L − 11) − unused = m × N", of the section at b.
pub fn length_bad(s: &[u8], b: Part, m: u32, p: Packing) -> bool
    ensures { result ≡ the_length_bad s.now b m p }
{
    let unused = octet(s, b.start as usize, 4) % 16;
    8 * less(b.len, 11) as usize != m as usize * p.bits as usize + unused as usize
}
