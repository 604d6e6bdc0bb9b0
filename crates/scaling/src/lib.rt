// The packer's choice of R and E, and X at a point. All total. R is the least present number. E is found from the
// greatest r = V − R alone: X grows with r, so that all X fit in N bits where the greatest does.
#![tactic(auto)]

ghost use Rattle.std.specs.Prelude.{◌≡◌, true, false, MatchOption, ℕ, ◌^◌, ◌<◌, leb, ℤ, pos, nat_abs, ◌-ℤ◌, length};
ghost use Rattle.std.specs.Prelude.{get_or};
ghost use Rattle.std.specs.Int.Signed.{mag};
ghost use Rattle.rules.specs.Packing.{reference as the_reference, exponent as the_exponent, stepped};
ghost use Rattle.scaling.specs.Spread.{lesser_of, greater_of, folded, some_in, lowest_in, Highest, spread_of};
ghost use Rattle.scaling.specs.Spread.{least_for};
ghost use Rattle.rules.specs.Checking.{source_as};

use gathering::gather;
use marks::none_marked;
use rules::bounds::{SOURCE_MOST, STEP_MOST};

// How many E there are to choose from, 0 to 24.
const STEPS: u8 = STEP_MOST as u8 + 1;

// How many points are looked at at once, at most.
const BLOCK: usize = 256;

// No number is below it.
const LEAST: i32 = -2147483648;

// R and E as whole numbers; E is 25 where none of 0 to 24 serves.
#[derive(Clone, Copy)]
pub struct Choice {
    pub reference: i32,
    pub exponent: u8,
}

// The least present number and the greatest; SOURCE_MOST and LEAST where marks are none of 1.
#[derive(Clone, Copy)]
struct Extremes {
    low: i32,
    high: i32,
}

// |V − R|.
pub fn apart(v: i32, r: i32) -> u64
    ensures { result ≡ nat_abs (v -ℤ r) }
{
    let d = v as i64 - r as i64;
    if d < 0 {
        return (-d) as u64;
    }
    d as u64
}

// "X = r for E = 0, else X is the whole part of (r + 2^(E − 1)) / 2^E": the halves of a step that r has, rounded up to
// whole steps.
pub fn step(e: u8, r: u64) -> u64
    ensures { result ≡ stepped e r }
{
    if e == 0 {
        return r;
    }
    if 64 < e {
        return 0;
    }
    let halves = r >> (e - 1);
    halves / 2 + halves % 2
}

// Whether a number is 2^N or more.
fn fills(bits: u8, x: u64) -> bool
    ensures { result ≡ leb (2 ^ bits) x }
{
    if bits < 64 {
        return (1u64 << bits) <= x;
    }
    false
}

// The least of some numbers and of `low`.
fn least_of(numbers: &[i32], low: i32) -> i32
    ensures { result ≡ folded lesser_of low (λ k. get_or numbers.now k (pos 0)) (length numbers.now) }
{
    let mut least = low;
    for v in numbers {
        least = least.min(*v);
    }
    least
}

// The greatest of some numbers and of `high`; and each of these has 32 bits.
fn greatest_of(numbers: &[i32], high: i32) -> i32
    ensures value { result ≡ folded greater_of high (λ k. get_or numbers.now k (pos 0)) (length numbers.now) }
    ensures by_index { (k : ℕ) → k < length numbers.now → mag (get_or numbers.now k (pos 0)) < 2 ^ 31 }
{
    let mut greatest = high;
    for v in numbers {
        greatest = (*v).max(greatest);
    }
    greatest
}

// One walk for all that R and E need: the numbers at the present points of a block are gathered, without a branch on a
// mark, and the least and the greatest of them found. Marks past their end are 0; None where all are.
fn walk(numbers: &[i32], marks: &[u8]) -> Option<Extremes>
    ensures { MatchOption result (some_in marks.now (length numbers.now) ≡ false)
        (λ x. (some_in marks.now (length numbers.now) ≡ true)
        × ((x.low ≡ lowest_in numbers.now marks.now (length numbers.now))
        × Highest numbers.now marks.now (length numbers.now) x.high)) }
{
    let n = numbers.len().min(marks.len());
    let mut held = [0i32; BLOCK];
    let mut low = SOURCE_MOST;
    let mut high = LEAST;
    for (b, block) in numbers[..n].chunks(BLOCK).enumerate() {
        let m = gather(block, marks, b * BLOCK, &mut held);
        low = least_of(&held[..m], low);
        high = greatest_of(&held[..m], high);
    }
    if none_marked(marks, numbers.len()) {
        return None;
    }
    Some(Extremes {
        low: low,
        high: high,
    })
}

// The greatest V − R of the present points, from the greatest V; 0 where there is none.
fn spread(r: i32, high: i32) -> u64
    ensures { result ≡ spread_of r high }
{
    if high < r {
        return 0;
    }
    apart(high, r)
}

// "R is the least present V", and 0 where no point is present.
pub fn reference(numbers: &[i32], marks: &[u8]) -> i32
    ensures { (d : ℤ) → result ≡ the_reference (source_as numbers.now marks.now d) }
{
    match walk(numbers, marks) {
        Some(x) => x.low,
        None => 0,
    }
}

// The least E for which a spread fits in N bits.
fn least_step(bits: u8, r: u64) -> u8
    ensures { result ≡ least_for bits r }
{
    for e in 0..STEPS {
        if !fills(bits, step(e, r)) {
            return e;
        }
    }
    STEPS
}

// R and E for a source field, whatever its D is, and bits per value N.
pub fn choose(numbers: &[i32], marks: &[u8], bits: u8) -> Choice
    ensures { (d : ℤ) → (result.reference ≡ the_reference (source_as numbers.now marks.now d))
        × (result.exponent ≡ the_exponent (source_as numbers.now marks.now d) bits) }
{
    match walk(numbers, marks) {
        Some(x) => Choice {
            reference: x.low,
            exponent: least_step(bits, spread(x.low, x.high)),
        },
        None => Choice {
            reference: 0,
            exponent: least_step(bits, 0),
        },
    }
}
