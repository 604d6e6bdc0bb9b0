// The numbers that four and eight octets in memory make, and parts of such a number.
ghost use Rattle.std.specs.Prelude.{◌≡◌, ◌+◌, ◌*◌, ◌/◌, ◌%◌, ◌^◌, ◌<◌, ◌≤◌, length};
ghost use Rattle.std.specs.Int.Count.{ones};
ghost use Rattle.bits.specs.Bits.{bits_in, run, count};

// An octet, to be part of a number.
pub(crate) fn wide(x: u8) -> u64
    ensures { (result ≡ x) × (result < 256) }
{
    x as u64
}

// The number that the four octets from octet k on make.
pub(crate) fn word(s: &[u8], k: usize) -> u64
    requires { k + 4 ≤ length s.now }
    ensures { result ≡ run (bits_in 8 s.now) (k * 8) 32 }
{
    ((wide(s[k]) * 256 + wide(s[k + 1])) * 256 + wide(s[k + 2])) * 256 + wide(s[k + 3])
}

// The number that the eight octets from octet k on make.
pub(crate) fn word8(s: &[u8], k: usize) -> u64
    requires { k + 8 ≤ length s.now }
    ensures { result ≡ run (bits_in 8 s.now) (k * 8) 64 }
{
    word(s, k) * 4294967296 + word(s, k + 4)
}

// The number that the four octets from octet k on make the other way round, the last one first, as the machine reads
// them: its ones are theirs, which no order changes.
pub(crate) fn reversed(s: &[u8], k: usize) -> u64
    requires { k + 4 ≤ length s.now }
    ensures { (ones result ≡ count (bits_in 8 s.now) (k * 8) 32) × (result < 2 ^ 32) }
{
    ((wide(s[k + 3]) * 256 + wide(s[k + 2])) * 256 + wide(s[k + 1])) * 256 + wide(s[k])
}

// Eight octets so.
pub(crate) fn reversed8(s: &[u8], k: usize) -> u64
    requires { k + 8 ≤ length s.now }
    ensures { ones result ≡ count (bits_in 8 s.now) (k * 8) 64 }
{
    reversed(s, k + 4) * 4294967296 + reversed(s, k)
}

// The number that the first c bits of the eight octets from octet k on make.
pub(crate) fn leading(s: &[u8], k: usize, c: usize) -> u64
    requires k_in_bounds { k + 8 ≤ length s.now }
    requires c_nonzero { (0 < c) × (c ≤ 64) }
    ensures { result ≡ run (bits_in 8 s.now) (k * 8) c }
{
    word8(s, k) >> (64 - c)
}

// The number that n bits of w make, of which `up` bits follow.
pub(crate) fn part(w: u64, up: usize, n: usize) -> u32
    requires { (up < 64) × (n ≤ 32) }
    ensures { result ≡ w / 2 ^ up % 2 ^ n }
{
    ((w >> up) % (1 << n)) as u32
}
