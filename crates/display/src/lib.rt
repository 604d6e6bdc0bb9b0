// The display record of a message: R and 2^E as IEEE doubles of exactly those values, by their bits. Total; refusal 16
// comes after 1 to 12.
#![tactic(auto)]

ghost use Rattle.std.specs.Prelude.{◌≡◌, ◌<◌, ◌≤ℤ◌, ◌||◌};
ghost use Rattle.std.specs.Int.Signed.{lt_z};
ghost use Rattle.rules.specs.Bounds.{shown_least, shown_most};
ghost use Rattle.rules.specs.Answers.{display_reply};
ghost use Rattle.rules.specs.Display.{the_ref_bits, the_step_bits, shown_reference, shown_step, display_of};
ghost use Rattle.rules.specs.Bitmap.{lent_as};

use message::header;
use reply::refuse;
use rules::bounds::{SHOWN_LEAST, SHOWN_MOST};
use rules::{Display, Refusal, Scale, Signed};

// The bits of R as a double: sign s, exponent a, digits b. Its leading one is not written, so the digits move up to the
// exponent's field; 773 is `ref_exponent`.
fn ref_bits(s: u64, a: u64, b: u32) -> u64
    requires { (s < 2) × (a < 128) × (b < 16777216) }
    ensures { result ≡ the_ref_bits s a b }
{
    if b == 0 {
        return 0;
    }
    let z = u32::leading_zeros(b) as u64;
    let t = (b as u64) << (21 + z);
    s * 9223372036854775808 + ((4 * a + 773 - z) * 4503599627370496 + t)
}

// The bits of 2^E as a double: E + 1,023 in the exponent's field.
fn step_bits(e: Signed) -> u64
    requires { (shown_least ≤ℤ e.value) × (e.value ≤ℤ shown_most) }
    ensures { result ≡ the_step_bits e.value }
{
    ((e.value + 1023) as u64) * 4503599627370496
}

// "E outside −1,022 to 1,023".
fn beyond(e: Signed) -> bool
    ensures { result ≡ (lt_z e.value shown_least || lt_z shown_most e.value) }
{
    (e.value < SHOWN_LEAST) | (SHOWN_MOST < e.value)
}

// The two doubles of R's four octets and of E.
fn shown(c: Scale) -> Display
    requires { (shown_least ≤ℤ c.e.value) × (c.e.value ≤ℤ shown_most) }
    ensures { result ≡ record { reference = shown_reference c.r; step = shown_step c.e.value } }
{
    let r = c.r;
    let reference = ref_bits(
        (r / 2147483648) as u64,
        (r / 16777216 % 128) as u64,
        r % 16777216,
    );
    let step = step_bits(c.e);
    Display {
        reference: f64::from_bits(reference),
        step: f64::from_bits(step),
    }
}

// What a message shows.
pub fn display(s: &[u8], number: u16, store: &[u8]) -> Result<Display, Refusal>
    ensures { result ≡ display_reply (display_of s.now (lent_as number store.now)) }
{
    let h = header(s, number, store)?;
    refuse(16, beyond(h.scale.e))?;
    Ok(shown(h.scale))
}
