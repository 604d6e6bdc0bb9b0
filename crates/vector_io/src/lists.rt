// Lists that are lent to a call: what their elements hold before it, whether they still hold it, and one number for
// those that the call wrote.
ghost use Rattle.std.specs.Prelude.{◌≡◌, ℕ, ◌+◌, ◌*◌, ◌%◌, ◌^◌, ◌<◌, ◌≤◌, ◌↔◌, IsTrue, length, take};
ghost use Rattle.std.specs.List.{HoldsAt};

use std::marker::PhantomData;

// Such a list, by what its elements hold.
pub trait Lent {
    type Element: Copy + PartialEq;

    ghost the_before: { ℕ → Self.Element };

    // What stands at place i before a call.
    fn before(i: usize) -> Self::Element
        ensures { result ≡ the_before i };
}

// Octets that a message is written into.
pub struct Octets;

// The marks of a reading.
pub struct Marks;

// The values of a reading, or an index's entries.
pub struct Numbers;

impl Lent for Octets {
    type Element = u8;

    ghost the_before = { λ i. 5 + i % 251 };

    // Another octet than at the next place, and neither 0 nor 1.
    fn before(i: usize) -> u8 {
        5 + (i % 251) as u8
    }
}

impl Lent for Marks {
    type Element = u8;

    ghost the_before = { λ i. 2 + i % 250 };

    // Neither 0 nor 1.
    fn before(i: usize) -> u8 {
        2 + (i % 250) as u8
    }
}

impl Lent for Numbers {
    type Element = u32;

    ghost the_before = { λ i. 4278190080 + i % 65536 };

    // More than any number of 24 bits.
    fn before(i: usize) -> u32 {
        4278190080 + (i % 65536) as u32
    }
}

// An element whose own type says what it holds before a call.
pub trait Element: Copy + PartialEq {
    ghost the_before: { ℕ → Self };

    // What stands at place i before a call.
    fn before(i: usize) -> Self
        ensures { result ≡ the_before i };
}

impl Element for u8 {
    ghost the_before = { λ i. 5 + i % 251 };

    // As in octets that a message is written into.
    fn before(i: usize) -> u8 {
        Octets::before(i)
    }
}

impl Element for u32 {
    ghost the_before = { λ i. 4278190080 + i % 65536 };

    // As in the values of a reading.
    fn before(i: usize) -> u32 {
        Numbers::before(i)
    }
}

// A list of such elements.
pub struct Own<T>(PhantomData<T>);

impl<T: Element> Lent for Own<T> {
    type Element = T;

    ghost the_before = { T.the_before };

    // What the element's type says.
    fn before(i: usize) -> T {
        T::before(i)
    }
}

// Every element becomes what it holds before a call.
pub fn fill<L: Lent>(s: &mut [L::Element])
    ensures { (k : ℕ) → k < length s.old → HoldsAt (λ y. y ≡ L.the_before k) s.new k }
{
    for i in 0..s.len() {
        s[i] = L::before(i);
    }
}

// Whether the elements from place n on are as they were.
pub fn kept<L: Lent>(s: &[L::Element], n: usize) -> bool
    ensures { IsTrue result
        ↔ ((k : ℕ) → n ≤ k → k < length s.now → HoldsAt (λ y. IsTrue (L.Element.eq y (L.the_before k))) s.now k) }
{
    for i in n..s.len() {
        if s[i] != L::before(i) {
            return false;
        }
    }
    true
}

// The first n elements; all of them where they are fewer.
pub fn first<T>(s: &[T], n: usize) -> &[T]
    ensures { result.now ≡ take n s.now }
{
    &s[..n.min(s.len())]
}

// The sum so far with one number more: 16777619 times the sum, and the number, below 2^32.
pub fn added(sum: u32, x: u32) -> u32
    ensures { result ≡ (sum * 16777619 + x) % 2 ^ 32 }
{
    sum.wrapping_mul(16777619).wrapping_add(x)
}

#[cfg(test)]
mod tests {
    use super::{Element, Own, fill, kept};

    // The test holds, or it is named.
    fn holds(test: bool, name: &'static str) -> Result<(), &'static str> {
        if test { Ok(()) } else { Err(name) }
    }

    // Whether a list is kept once it is filled, by its elements' type alone.
    fn filled_is_kept<T: Element>(s: &mut [T]) -> bool {
        fill::<Own<T>>(s);
        kept::<Own<T>>(s, 0)
    }

    // What octets hold, and that a list of them is filled and kept.
    #[test]
    fn octets() -> Result<(), &'static str> {
        holds(u8::before(0) == 5, "the first")?;
        holds(u8::before(250) == 255, "the last before the first again")?;
        holds(u8::before(251) == 5, "the first again")?;
        let mut s = [0u8; 3];
        holds(filled_is_kept(&mut s), "kept")?;
        holds(s == [5, 6, 7], "filled")?;
        s[1] = 5;
        holds(kept::<Own<u8>>(&s, 2), "kept after it")?;
        holds(!kept::<Own<u8>>(&s, 1), "changed")
    }

    // The same of numbers.
    #[test]
    fn numbers() -> Result<(), &'static str> {
        holds(u32::before(0) == 4278190080, "the first")?;
        holds(
            u32::before(65535) == 4278255615,
            "the last before the first again",
        )?;
        holds(u32::before(65536) == 4278190080, "the first again")?;
        let mut s = [0u32; 3];
        holds(filled_is_kept(&mut s), "kept")?;
        holds(s == [4278190080, 4278190081, 4278190082], "filled")?;
        s[1] = 0;
        holds(kept::<Own<u32>>(&s, 2), "kept after it")?;
        holds(!kept::<Own<u32>>(&s, 1), "changed")
    }
}
