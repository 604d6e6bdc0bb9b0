// Whether numbers have no more than so many bits: one, and each of a list.
#![tactic(auto)]

ghost use Rattle.std.specs.Prelude.{◌≡◌, ◌^◌, ltb};
ghost use Rattle.widths.specs.Below.{all_below};

// Whether v has no more than n bits.
pub fn below(v: u32, n: usize) -> bool
    ensures { result ≡ ltb v (2 ^ n) }
{
    if n < 32 {
        return v < 1 << n;
    }
    true
}

// Whether each number of vs has no more than n bits: then none of them has a higher bit.
pub fn all_below(vs: &[u32], n: u8) -> bool
    ensures { result ≡ all_below n vs.now }
{
    let mut all: u32 = 0;
    for v in vs {
        all |= *v;
    }
    below(all, n as usize)
}
