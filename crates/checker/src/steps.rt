// Refusal 17: how far a source number lies from what the message says of its point. Numbers are lifted by 2^31, so that
// all of it is done in unsigned numbers.
ghost use Rattle.std.specs.Prelude.{◌≡◌, false, ◌*◌, ◌^◌, ◌<◌, ◌≤◌, pos, nat_abs, ◌+ℤ◌};
ghost use Rattle.rules.specs.Bounds.{step_most};
ghost use Rattle.rules.specs.Table.{any_of};
ghost use Rattle.rules.specs.Checking.{far_from, scale_faults};

use rules::Scale;
use rules::bounds::STEP_MOST;
use source::whole_bad;

// A number lifted by 2^31, which leaves none below 0.
fn lifted(v: i32) -> u64
    ensures { (pos result ≡ v +ℤ pos 2147483648) × (result < 2 ^ 32) }
{
    (v as i64 + 2147483648) as u64
}

// 2^E.
fn power(e: u32) -> u64
    requires { e ≤ step_most }
    ensures { (result ≡ 2 ^ e) × (result ≤ 2 ^ step_most) }
{
    1 << e
}

// Twice a number, so that half a step is a whole one.
fn twice(a: u64) -> u64
    requires { a < 2 ^ 62 }
    ensures { result ≡ a * 2 }
{
    a * 2
}

// Whether V is out by more than half a step: 2 × |V − R − X × 2^E| ≤ 2^E fails.
pub(crate) fn far(v: i32, r: i32, x: u32, e: u32) -> bool
    requires { e ≤ step_most }
    ensures { result ≡ far_from v r x e }
{
    let step = power(e);
    let said = twice(lifted(r) + x as u64 * step);
    let given = twice(lifted(v));
    (given + step < said) | (said + step < given)
}

// Refusal 16: E outside 0 to 24, or R not a whole number within its bound.
pub(crate) fn scale_bad(c: Scale) -> bool
    ensures { result ≡ any_of (scale_faults c) }
{
    (c.e.value < 0) | (STEP_MOST < c.e.value) | whole_bad(c.r)
}

// E where 16 takes it, and 0 elsewhere.
pub(crate) fn step_of(c: Scale) -> u32
    ensures { (result ≤ step_most) × (any_of (scale_faults c) ≡ false → result ≡ nat_abs c.e.value) }
{
    if scale_bad(c) {
        return 0;
    }
    c.e.value as u32
}
