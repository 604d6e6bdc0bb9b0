// X of many numbers at once, without a branch in the loop: |V − R| of two 32-bit numbers fits in 32 bits, and so does
// X.
#![tactic(auto)]

ghost use Rattle.std.specs.Prelude.{◌≡◌, ◌≤◌, nat_abs, ◌-ℤ◌, length};
ghost use Rattle.rules.specs.Packing.{stepped};
ghost use Rattle.steps.specs.Steps.{steps_to, steps_into};

use scaling::apart;

// |V − R|.
fn distance(v: i32, r: i32) -> u32
    ensures { result ≡ nat_abs (v -ℤ r) }
{
    apart(v, r) as u32
}

// "X = r for E = 0, else X is the whole part of (r + 2^(E − 1)) / 2^E".
fn step(e: u8, a: u32) -> u32
    ensures { result ≡ stepped e a }
{
    if e == 0 {
        return a;
    }
    if 32 < e {
        return 0;
    }
    let halves = a >> (e - 1);
    halves / 2 + halves % 2
}

// X of each number, where they fit.
fn scale_fitting(numbers: &[i32], r: i32, e: u8, xs: &mut [u32])
    requires { length numbers.now ≤ length xs.old }
    ensures { xs.new ≡
        steps_to numbers.now r e (length numbers.now) xs.old }
{
    for i in 0..numbers.len() {
        xs[i] = step(e, distance(numbers[i], r));
    }
}

// X of each number for an R and an E, to the front of xs. Where xs is too short nothing changes.
pub fn scale(numbers: &[i32], r: i32, e: u8, xs: &mut [u32])
    ensures { xs.new ≡ steps_into numbers.now r e xs.old }
{
    if numbers.len() <= xs.len() {
        scale_fitting(numbers, r, e, xs);
    }
}
