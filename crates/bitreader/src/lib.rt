// A reader of bits: the data octets and the bit place reached in them. Thin over `runs::fetch` and `runs::unpack`;
// whoever calls `take` or `take_all` holds no reference in a struct. All total: past the end a bit is 0, a number of
// more than 32 bits is 0, and many numbers that do not fit the lent list change nothing.
#![tactic(auto)]

ghost use Rattle.std.specs.Prelude.{◌≡◌, ◌<◌, ◌^◌, length};
ghost use Rattle.runs.specs.Take.{unpacked};
ghost use Rattle.bitreader.specs.Taken.{taken_at, taken_all, the_data_place, the_value_place, reached as the_reached};

use rules::bounds::BDS_HEAD;
use runs::{fetch, unpack};

// The data octets, and the bit place reached in them.
#[derive(Clone, Copy)]
pub struct BitReader<'a> {
    data: &'a [u8],
    at: u32,
}

// A number taken, and the place reached after it.
#[derive(Clone, Copy)]
pub struct Taken {
    pub value: u32,
    pub at: u32,
}

// The place so many bits on; the greatest place stays.
fn reached(at: u32, bits: u64) -> u32
    requires { bits < 2 ^ 63 }
    ensures { result ≡ the_reached at bits }
{
    let far = at as u64 + bits;
    if far <= 4294967295 {
        return far as u32;
    }
    4294967295
}

impl<'a> BitReader<'a> {
    // A reader of data from a bit place on.
    pub fn new(data: &'a [u8], at: u32) -> BitReader<'a>
        ensures { (result.data ≡ «data».entry) × (result.at ≡ at) }
    {
        BitReader { data, at }
    }

    // The next number of n bits, and the place reached.
    pub fn next(self, n: u8) -> Taken
        ensures { result ≡ taken_at self.entry.data.now self.entry.at n }
    {
        Taken {
            value: fetch(self.data, self.at, n),
            at: reached(self.at, n as u64),
        }
    }

    // The same data, from another place on.
    pub fn moved(self, at: u32) -> BitReader<'a>
        ensures { (result.data ≡ self.entry.data) × (result.at ≡ at) }
    {
        BitReader {
            data: self.data,
            at,
        }
    }

    // The next m numbers of n bits each, into the front of a list, and the place reached. Where n is over 24 or out is
    // shorter than m nothing changes, and no place is reached.
    pub fn next_all(self, n: u8, out: &mut [u32], m: u32) -> Option<u32>
        ensures value { result ≡ taken_all self.entry.at n m (length out.old) }
        ensures out_after { out.new ≡ unpacked self.entry.data.now self.entry.at n m out.old }
    {
        if unpack(self.data, self.at, n, out, m) {
            return Some(reached(self.at, m as u64 * n as u64));
        }
        None
    }
}

// From plain octets and a place to a number and the place after it.
pub fn take(data: &[u8], at: u32, n: u8) -> Taken
    ensures { result ≡ taken_at «data».now at n }
{
    BitReader::new(data, at).next(n)
}

// Many numbers from plain octets and a place.
pub fn take_all(data: &[u8], at: u32, n: u8, out: &mut [u32], m: u32) -> Option<u32>
    ensures value { result ≡ taken_all at n m (length out.old) }
    ensures out_after { out.new ≡ unpacked «data».now at n m out.old }
{
    BitReader::new(data, at).next_all(n, out, m)
}

// Where the values of a data section begin that starts at octet `start`: after its head. The greatest place stays.
pub fn data_place(start: u32) -> u32
    ensures { result ≡ the_data_place start }
{
    reached(0, (start as u64 + BDS_HEAD as u64) * 8)
}

// Where value k of n bits each begins in such a section. The greatest place stays.
pub fn value_place(start: u32, n: u8, k: u32) -> u32
    ensures { result ≡ the_value_place start n k }
{
    reached(data_place(start), k as u64 * n as u64)
}
