// Marks put as a bitmap, eight to an octet, and taken from one.
ghost use Rattle.std.specs.Prelude.{◌≡◌, ◌++◌, ◌+◌, ◌-◌, ◌*◌, ◌/◌, ◌<◌, ◌≤◌, leb, length, drop};
ghost use Rattle.bits.specs.Bits.{bits_in, run, runs, placed};
ghost use Rattle.bits.specs.Tables.{tab};
ghost use Rattle.rules.specs.Bitmap.{mark_of};
ghost use Rattle.marks.specs.Marks.{marks_put, marked_by, OctetOf};

use crate::judging::inside;

// The octet of the c marks from point p on, eight or the last of m points, and zeros after them.
fn octet_of(marks: &[u8], p: usize, c: usize) -> u8
    requires { (p + c ≤ length marks.now) × (c ≤ 8) }
    ensures { OctetOf marks.now p c result }
{
    let mut x: u8 = 0;
    for j in 0..c {
        x = x * 2 + marks[p + j] % 2;
    }
    ((x as u32) << (8 - c)) as u8
}

// Octet g of those of m marks, after the whole ones.
fn octet_after(marks: &[u8], m: usize, g: usize) -> u8
    requires { (m ≤ length marks.now) × (m / 8 ≤ g) }
    ensures { result ≡ run (bits_in 1 (tab (mark_of marks.now) m)) (g * 8) 8 }
{
    if g == m / 8 {
        return octet_of(marks, g * 8, m % 8);
    }
    0
}

// c octets of m marks: the whole ones without a test.
fn put_inside(marks: &[u8], m: usize, out: &mut [u8], k: usize, c: usize)
    requires m_in_bounds { m ≤ length marks.now }
    requires c_in_bounds { k + c ≤ length out.old }
    ensures { out.new ≡
        placed out.old k (runs (bits_in 1 (tab (mark_of marks.now) m)) 0 8 c) }
{
    let whole = c.min(m / 8);
    for g in 0..whole {
        out[k + g] = octet_of(marks, g * 8, 8);
    }
    for g in whole..c {
        out[k + g] = octet_after(marks, m, g);
    }
}

// c octets of out from place k on become the marks of n points, eight to an octet, the first leftmost, and zeros after
// the last. Where out is too short nothing changes and the answer is false.
pub fn put(marks: &[u8], n: u32, out: &mut [u8], k: usize, c: usize) -> bool
    ensures value { result ≡ leb (k + c) (length out.old) }
    ensures out_after { out.new ≡ marks_put marks.now n out.old k c }
{
    if k <= out.len() {
        if c <= out.len() - k {
            put_inside(marks, marks.len().min(n as usize), out, k, c);
            return true;
        }
    }
    false
}

// The marks of m points from octet k of a bitmap on, all of whose bits are there.
fn fill_inside(map: &[u8], k: usize, m: usize, marks: &mut [u8])
    requires m_bound { m ≤ (length map.now - k) * 8 }
    requires m_in_bounds { m ≤ length marks.old }
    ensures { marks.new ≡
        tab (λ i. bits_in 8 map.now (k * 8 + i)) m ++ drop m marks.old }
{
    for g in 0..m / 8 {
        let b = map[k + g];
        for j in 0..8 {
            marks[g * 8 + j] = (b >> (7 - j)) % 2;
        }
    }
    for i in m / 8 * 8..m {
        marks[i] = (map[k + i / 8] >> (7 - i % 8)) % 2;
    }
}

// The marks of n points become the n bits from octet k of a bitmap on. Where the list is shorter nothing changes and
// the answer is false.
pub fn fill(map: &[u8], k: usize, n: u32, marks: &mut [u8]) -> bool
    ensures value { result ≡ leb n (length marks.old) }
    ensures marks_after { marks.new ≡
        marked_by (λ i. bits_in 8 map.now (k * 8 + i)) n marks.old }
{
    if n as usize <= marks.len() {
        let m = inside(map.len(), k, n);
        fill_inside(map, k, m, marks);
        marks[m..n as usize].fill(0);
        return true;
    }
    false
}

// Each of n points becomes present. Where the list is shorter nothing changes and the answer is false.
pub fn fill_all(n: u32, marks: &mut [u8]) -> bool
    ensures value { result ≡ leb n (length marks.old) }
    ensures marks_after { marks.new ≡ marked_by (λ _. 1) n marks.old }
{
    if n as usize <= marks.len() {
        marks[..n as usize].fill(1);
        return true;
    }
    false
}
