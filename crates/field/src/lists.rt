// The two lists of a field: its values and marks, where every point is present and where a bitmap says which are.
ghost use Rattle.std.specs.Prelude.{◌≡◌, cond, ◌++◌, ◌*◌, ◌≤◌, length, drop};
ghost use Rattle.bits.specs.Bits.{bits_in, count, runs};
ghost use Rattle.rules.specs.Bitmap.{bitmap_octets, in_force, present_by};
ghost use Rattle.rules.specs.Places.{after};
ghost use Rattle.rules.specs.Points.{scattered};
ghost use Rattle.marks.specs.Marks.{marked_by};

use crate::spread::spread;
use bitreader::take_all;
use marks::{fill, fill_all};
use rules::{Bitmap, Part};

// n points, all present: their values of so many bits each stand one after another from bit place `at` on.
fn all_present(s: &[u8], at: u32, bits: u8, n: u32, values: &mut [u32], marks: &mut [u8])
    requires bits_bound { bits ≤ 24 }
    requires n_in_bounds { n ≤ length values.old }
    ensures values_after { values.new ≡ runs (bits_in 8 s.now) at bits n ++ drop n values.old }
    ensures marks_after { marks.new ≡ marked_by (λ _. 1) n marks.old }
{
    take_all(s, at, bits, values, n);
    fill_all(n, marks);
}

// n points, m of them present by the bitmap: the present ones' values stand one after another from bit place `at` on.
// They are taken to the front of the list and spread from there, so nothing else is lent.
fn some_present(
    s: &[u8],
    at: u32,
    bits: u8,
    bitmap: &[u8],
    n: u32,
    m: u32,
    values: &mut [u32],
    marks: &mut [u8],
)
    requires bits_bound { bits ≤ 24 }
    requires m_value { m ≡ count (bits_in 8 bitmap.now) 0 n }
    requires n_in_bounds { n ≤ length bitmap.now * 8 }
    requires n_in_bounds_2 { n ≤ length values.old }
    ensures values_after { values.new ≡
        scattered (bits_in 8 bitmap.now) (runs (bits_in 8 s.now) at bits m) n
        ++ drop n values.old }
    ensures marks_after { marks.new ≡ marked_by (bits_in 8 bitmap.now) n marks.old }
{
    take_all(s, at, bits, values, m);
    spread(bitmap, values, n as usize, m as usize);
    fill(bitmap, 0, n, marks);
}

// n points of which m are present, by a bitmap of any kind whose section lies at bms.
pub(crate) fn fill_lists(
    s: &[u8],
    store: &[u8],
    bitmap: Bitmap,
    bms: Part,
    at: u32,
    bits: u8,
    n: u32,
    m: u32,
    values: &mut [u32],
    marks: &mut [u8],
)
    requires bits_bound { bits ≤ 24 }
    requires m_value { m ≡ count (present_by bitmap (bitmap_octets s.now store.now (in_force bitmap bms n))) 0 n }
    requires n_in_bounds { after (in_force bitmap bms n).part ≤ length
        (cond (in_force bitmap bms n).stored store.now s.now) }
    requires n_in_bounds_2 { n ≤ length values.old }
    ensures values_after { values.new ≡
        scattered (present_by bitmap (bitmap_octets s.now store.now (in_force bitmap bms n)))
        (runs (bits_in 8 s.now) at bits m) n ++ drop n values.old }
    ensures marks_after { marks.new ≡
        marked_by (present_by bitmap (bitmap_octets s.now store.now (in_force bitmap bms n))) n
        marks.old }
{
    let a = bms.start as usize + 6;
    match bitmap {
        Bitmap::Without => all_present(s, at, bits, n, values, marks),
        Bitmap::Carried => some_present(s, at, bits, &s[a..], n, m, values, marks),
        Bitmap::Stored(_) => some_present(s, at, bits, store, n, m, values, marks),
    }
}
