// The bitmap of a message, refusal 10, and how many points are present. All total.
#![tactic(auto)]

ghost use Rattle.std.specs.Prelude.{◌≡◌, []};
ghost use Rattle.rules.specs.Table.{any_of};
ghost use Rattle.bits.specs.Bits.{count};
ghost use Rattle.rules.specs.declared.Bitmap.TheVariants.{Carried, Stored};
ghost use Rattle.rules.specs.Bitmap.{the_bitmap_at, bitmap_faults, in_force, bitmap_octets, present_by, lent_as};

use choices::less;
use octets::{octet, two};
use rules::{Bitmap, Part};
use runs::ones;

// What the bitmap section at a place says, where there is one.
pub fn bitmap_at(s: &[u8], there: bool, b: u32) -> Bitmap
    ensures { result ≡ the_bitmap_at s.now there b }
{
    if there {
        let number = two(s, b as usize, 5);
        if number == 0 {
            return Bitmap::Carried;
        }
        return Bitmap::Stored(number);
    }
    Bitmap::Without
}

// "8 × (L − 6) − unused = n and unused 0 to 15".
fn carried_bad(s: &[u8], p: Part, n: u32) -> bool
    ensures { result ≡ any_of (bitmap_faults s.now (record { number = 0; octets = [] }) p Carried n) }
{
    let unused = octet(s, p.start as usize, 4);
    (15 < unused) | (8 * less(p.len, 6) as usize != n as usize + unused as usize)
}

// "L is 6, octet 4 is 0", and of the lent bitmap "its number must be this one and its octets hold at least n bits".
fn stored_bad(s: &[u8], number: u16, store: &[u8], p: Part, wanted: u16, n: u32) -> bool
    ensures { result ≡
        any_of (bitmap_faults s.now (lent_as number store.now) p (Stored wanted) n) }
{
    (p.len != 6)
        | (octet(s, p.start as usize, 4) != 0)
        | (wanted == 0)
        | (number != wanted)
        | (store.len() < (n as usize + 7) / 8)
}

// Refusal 10 of a message: its bitmap breaks a rule, or no such bitmap is lent.
pub fn bitmap_bad(s: &[u8], number: u16, store: &[u8], p: Part, bitmap: Bitmap, n: u32) -> bool
    ensures { result ≡ any_of (bitmap_faults s.now (lent_as number store.now) p bitmap n) }
{
    match bitmap {
        Bitmap::Without => false,
        Bitmap::Carried => carried_bad(s, p, n),
        Bitmap::Stored(wanted) => stored_bad(s, number, store, p, wanted, n),
    }
}

// How many of the n points are present.
pub fn present(s: &[u8], store: &[u8], p: Part, bitmap: Bitmap, n: u32) -> u32
    ensures { result ≡
        count (present_by bitmap (bitmap_octets s.now store.now (in_force bitmap p n))) 0 n }
{
    match bitmap {
        Bitmap::Without => n,
        Bitmap::Carried => ones(s, p.start as usize + 6, n),
        Bitmap::Stored(_) => ones(store, 0, n),
    }
}
