// Octets stored, and whether they fit: what the other modules are made of.
ghost use Rattle.std.specs.Prelude.{◌≡◌, ◌+◌, ◌*◌, ◌^◌, ◌<◌, ◌≤◌, leb, length};
ghost use Rattle.bits.specs.Bits.{number_at};

// Whether c octets from place p on lie inside len octets.
pub(crate) fn room(len: usize, p: usize, c: usize) -> bool
    ensures { result ≡ leb (p + c) len }
{
    if p <= len {
        return c <= len - p;
    }
    false
}

// The c octets from octet k on become the number x.
pub(crate) fn store(out: &mut [u8], k: usize, c: usize, x: u64)
    requires c_bound { c ≤ 8 }
    requires x_bound { x < 2 ^ (c * 8) }
    requires c_in_bounds { k + c ≤ length out.old }
    ensures { out.new ≡ number_at out.old k c x }
{
    for j in 0..c {
        out[k + j] = ((x >> ((c - 1 - j) * 8)) % 256) as u8;
    }
}
