// The points: the source's marks are compared with the message's (15), and each present number with what the message
// says of it (17). The numbers at the present points of a block are gathered, as many X taken, and both compared, each
// in a loop of its own without a branch on a mark. Where every point is present nothing is gathered.
ghost use Rattle.std.specs.Prelude.{◌≡◌, not, true, ℕ, ◌+◌, ◌*◌, ◌^◌, ◌<◌, ◌≤◌, eqb, pos, length, get_or};
ghost use Rattle.bits.specs.Bits.{bits_in, run, count};
ghost use Rattle.bits.specs.Tables.{any_below};
ghost use Rattle.rules.specs.Bounds.{points_most, the_bits_most, step_most};
ghost use Rattle.rules.specs.Bitmap.{mark_of, marks_long, present_by, bitmap_octets, in_force};
ghost use Rattle.rules.specs.Checking.{far_from};
ghost use Rattle.bitreader.specs.Taken.{reached};
ghost use Rattle.gathering.specs.Gather.{here_from};
ghost use Rattle.checker.specs.Points.{out as is_out, the_block_far};

use crate::steps::far;
use bitreader::take_all;
use gathering::gather;
use marks::{all_present, unlike};
use rules::bounds::BMS_HEAD;
use rules::{Bitmap, Part};

// Whether a mark of n points is not the message's, by the kind of its bitmap.
pub(crate) fn marks_differ(
    s: &[u8],
    store: &[u8],
    bms: Part,
    bitmap: Bitmap,
    marks: &[u8],
    n: u32,
) -> bool
    ensures { result ≡
        any_below
        (λ i. not
        (eqb (present_by bitmap (bitmap_octets s.now store.now (in_force bitmap bms n)) i)
        (mark_of marks.now i)))
        n }
{
    match bitmap {
        Bitmap::Without => !all_present(marks, n),
        Bitmap::Carried => unlike(s, bms.start as usize + BMS_HEAD as usize, marks, n),
        Bitmap::Stored(_) => unlike(store, 0, marks, n),
    }
}

// How many points are compared at once, at most.
const BLOCK: usize = 256;

// Whether one of so many points is out, and the bit place reached in the data after their X.
#[derive(Clone, Copy)]
struct Turn {
    out: bool,
    at: u32,
}

// Whether one of the first c numbers is out, the X being those held.
fn few_far(numbers: &[i32], held: &[u32], c: usize, r: i32, e: u32) -> bool
    requires { (e ≤ step_most) × ((c ≤ length numbers.now) × (c ≤ length held.now)) }
    ensures { result ≡
        any_below (λ j. far_from (get_or numbers.now j (pos 0)) r (get_or held.now j 0) e) c }
{
    let mut out = false;
    for j in 0..c {
        out = out | far(numbers[j], r, held[j], e);
    }
    out
}

// The same, the X having n bits each from bit place `at` on.
fn far_at(
    s: &[u8],
    at: u32,
    n: u8,
    numbers: &[i32],
    c: usize,
    held: &mut [u32],
    r: i32,
    e: u32,
) -> Turn
    requires e_le_step_most { (e ≤ step_most) × (n ≤ the_bits_most) }
    requires c_in_bounds { (c ≤ length numbers.now) × ((c ≤ length held.old) × (c < 2 ^ 32)) }
    ensures at_value { result.at ≡ reached at (c * n) }
    ensures out_value { result.out ≡
        any_below
        (λ j. far_from (get_or numbers.now j (pos 0)) r (run (bits_in 8 s.now) (at + j * n) n) e)
        c }
{
    let end = take_all(s, at, n, held, c as u32).unwrap();
    Turn {
        out: few_far(numbers, held, c, r, e),
        at: end,
    }
}

// Whether a present point of a block is out: its first point is point i of all, and the X of its present points start
// at bit place `at`.
fn block_far(
    s: &[u8],
    at: u32,
    n: u8,
    all: bool,
    numbers: &[i32],
    marks: &[u8],
    i: usize,
    chosen: &mut [i32; BLOCK],
    held: &mut [u32; BLOCK],
    r: i32,
    e: u32,
) -> Turn
    requires e_le_step_most { (e ≤ step_most) × (n ≤ the_bits_most) }
    requires j_value { all ≡ true → (j : ℕ) → j < length numbers.now → mark_of marks.now (i + j) ≡ 1 }
    requires numbers_in_bounds { i + length numbers.now ≤ length marks.now }
    requires numbers_few { length numbers.now ≤ 256 }
    ensures at_value { result.at ≡
        reached at (count (here_from marks.now i) 0 (length numbers.now) * n) }
    ensures out_value { result.out ≡
        any_below (the_block_far s.now numbers.now marks.now i at n r e)
        (length numbers.now) }
{
    if all {
        return far_at(s, at, n, numbers, numbers.len(), held, r, e);
    }
    let m = gather(numbers, marks, i, chosen);
    far_at(s, at, n, chosen, m, held, r, e)
}

// Whether a present point is out by more than half a step. The data's values have n bits each, from bit place `from`
// on.
pub(crate) fn any_far(
    s: &[u8],
    numbers: &[i32],
    marks: &[u8],
    from: u32,
    n: u8,
    r: i32,
    e: u32,
) -> bool
    requires e_le_step_most { (e ≤ step_most) × ((n ≤ the_bits_most) × (from < 2 ^ 31)) }
    requires numbers_value { (marks_long (length numbers.now) ≡ length marks.now) × (length numbers.now ≤ points_most) }
    ensures { result ≡
        any_below (is_out s.now numbers.now marks.now from n r e)
        (length numbers.now) }
{
    let all = all_present(marks, numbers.len() as u32);
    let mut chosen = [0i32; BLOCK];
    let mut held = [0u32; BLOCK];
    let mut out = false;
    let mut at = from;
    for (b, block) in numbers.chunks(BLOCK).enumerate() {
        let turn = block_far(
            s,
            at,
            n,
            all,
            block,
            marks,
            b * BLOCK,
            &mut chosen,
            &mut held,
            r,
            e,
        );
        out = out | turn.out;
        at = turn.at;
    }
    out
}
