// The source field that the checker and the packer take: whole numbers, marks and D. Refusal 18, and R as a whole
// number. All total.
#![tactic(auto)]

ghost use Rattle.std.specs.Prelude.{◌≡◌, ◌<◌, ◌≤◌, ℤ, pos, length, get_or};
ghost use Rattle.bits.specs.Tables.{any_below};
ghost use Rattle.rules.specs.Table.{any_of};
ghost use Rattle.rules.specs.Bitmap.{marks_long};
ghost use Rattle.rules.specs.Bounds.{source_most};
ghost use Rattle.rules.specs.Numbers.{beyond};
ghost use Rattle.rules.specs.Checking.{source_faults, the_decimal_differs, source_as};
ghost use Rattle.source.specs.Present.{far};

mod whole; // whole.rt: R read as a whole number, and a whole number spelt as R

use gathering::gather;
use marks::{all_present, long, odd};
use rules::bounds::{POINTS_MOST, SOURCE_MOST};
pub use whole::{spelling, whole_bad, whole_of};

// Whether a number is outside its bound.
pub fn large(v: i32) -> bool
    ensures { result ≡ beyond source_most v }
{
    (SOURCE_MOST < v) | (v < -SOURCE_MOST)
}

// How many points are judged at once, at most.
const BLOCK: usize = 256;

// Whether one of some numbers is outside its bound.
fn any_large(numbers: &[i32]) -> bool
    ensures { result ≡
        any_below (λ i. beyond source_most (get_or numbers.now i (pos 0))) (length numbers.now) }
{
    let mut far = false;
    for v in numbers {
        far = far | large(*v);
    }
    far
}

// Whether the number of a present point is: those of a block of points are gathered, and judged after.
fn present_large(numbers: &[i32], marks: &[u8]) -> bool
    requires { marks_long (length numbers.now) ≡ length marks.now }
    ensures { result ≡ any_below (far numbers.now marks.now) (length numbers.now) }
{
    let mut held = [0i32; BLOCK];
    let mut far = false;
    for (b, block) in numbers.chunks(BLOCK).enumerate() {
        let m = gather(block, marks, b * BLOCK, &mut held);
        far = far | any_large(&held[..m]);
    }
    far
}

// Refusal 18, whatever D is: lists unequal or of a length that is not taken, a mark that is none, a present number over
// its bound.
pub fn source_bad(numbers: &[i32], marks: &[u8]) -> bool
    ensures { (d : ℤ) → result ≡ any_of (source_faults (source_as numbers.now marks.now d)) }
{
    let many = numbers.len();
    if (many < 1) | ((POINTS_MOST as usize) < many) {
        return true;
    }
    let n = many as u32;
    if marks.len() != long(n) {
        return true;
    }
    if all_present(marks, n) {
        return any_large(numbers);
    }
    odd(marks, n) | present_large(numbers, marks)
}

// Whether two D differ.
pub fn decimal_differs(a: i32, b: i32) -> bool
    ensures { result ≡ the_decimal_differs a b }
{
    (a < b) | (b < a)
}
