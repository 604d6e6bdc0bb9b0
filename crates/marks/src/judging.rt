// Points counted and judged by their marks. No branch on a mark: the machine then takes many at once.
ghost use Rattle.std.specs.Prelude.{◌≡◌, cond, ◌+◌, ◌-◌, ◌*◌, ◌≤◌, eqb, length};
ghost use Rattle.bits.specs.Bits.{count as ones};
ghost use Rattle.rules.specs.Bitmap.{mark_of, marks_long, mark_odd};
ghost use Rattle.laws.specs.Marks.{here};
ghost use Rattle.marks.specs.Marks.{the_all_present, the_none_marked, strays, marks_differ};

use octets::at;

// How many of the n bits from octet k on lie inside so many octets.
pub(crate) fn inside(len: usize, k: usize, n: u32) -> usize
    ensures { result ≡ n - (n - (len - k) * 8) }
{
    if len < k {
        return 0;
    }
    (n as usize).min(((n as usize + 7) / 8).min(len - k) * 8)
}

// 1 for a present point, 0 for an absent one.
fn one(mark: u8) -> u8
    ensures { result ≡ cond (eqb mark 1) 1 0 }
{
    if mark == 1 {
        return 1;
    }
    0
}

// How many of the c points from point p on are present. So few that an octet counts them: the machine then takes many
// at once.
fn some_present(marks: &[u8], p: usize, c: usize) -> u8
    requires { (p + c ≤ length marks.now) × (c ≤ 255) }
    ensures { result ≡ ones (here marks.now) p c }
{
    let mut m: u8 = 0;
    for i in 0..c {
        m += one(marks[p + i]);
    }
    m
}

// How long the marks of n points are.
pub fn long(n: u32) -> usize
    ensures { result ≡ marks_long n }
{
    n as usize
}

// Whether a point is present.
pub fn present(marks: &[u8], i: usize) -> bool
    ensures { result ≡ eqb (mark_of marks.now i) 1 }
{
    at(marks, i, 0) == 1
}

// How many of n points are present.
pub fn count(marks: &[u8], n: u32) -> u32
    ensures { result ≡ ones (here marks.now) 0 n }
{
    let end = (n as usize).min(marks.len());
    let mut m: u32 = 0;
    for g in 0..end / 128 {
        m += some_present(marks, g * 128, 128) as u32;
    }
    m + some_present(marks, end - end % 128, end % 128) as u32
}

// Whether each of n points is present.
pub fn all_present(marks: &[u8], n: u32) -> bool
    ensures { result ≡ the_all_present marks.now n }
{
    if marks.len() < n as usize {
        return false;
    }
    let mut gap = false;
    for mark in &marks[..n as usize] {
        gap = gap | !(*mark == 1);
    }
    !gap
}

// Whether no mark of n points is other than 0.
pub fn none_marked(marks: &[u8], n: usize) -> bool
    ensures { result ≡ the_none_marked marks.now n }
{
    let mut some = false;
    for mark in &marks[..n.min(marks.len())] {
        some = some | (*mark != 0);
    }
    !some
}

// Whether a mark of n points is not 0 or 1: `all` has every bit that one of them has.
pub fn odd(marks: &[u8], n: u32) -> bool
    ensures { result ≡ mark_odd marks.now n }
{
    let mut all: u8 = 0;
    for mark in &marks[..(n as usize).min(marks.len())] {
        all = all | *mark;
    }
    1 < all
}

// Whether a value other than 0 stands at an absent one of n points. Past the end of the marks each point is absent.
pub fn stray(values: &[u32], marks: &[u8], n: u32) -> bool
    ensures { result ≡ strays values.now marks.now n }
{
    let end = (n as usize).min(values.len());
    let marked = end.min(marks.len());
    let mut bad = false;
    for i in 0..marked {
        bad = bad | ((marks[i] == 0) & (values[i] != 0));
    }
    for i in marked..end {
        bad = bad | (values[i] != 0);
    }
    bad
}

// Whether one of the n bits from octet k of a bitmap on is not the same number as the mark.
pub fn unlike(map: &[u8], k: usize, marks: &[u8], n: u32) -> bool
    ensures { result ≡ marks_differ map.now k marks.now n }
{
    let both = inside(map.len(), k, n).min(marks.len());
    let mut bad = false;
    for i in 0..both {
        bad = bad | ((map[k + i / 8] >> (7 - i % 8)) % 2 != marks[i]);
    }
    for i in both..n as usize {
        bad = bad | ((at(map, k, i / 8) >> (7 - i % 8)) % 2 != at(marks, i, 0));
    }
    bad
}
