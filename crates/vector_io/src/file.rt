// The parts of a vector in a file. A length stands in three octets.
ghost use Rattle.std.specs.Prelude.{◌≡◌, ◌<◌, ◌-◌, ◌*◌, ◌^◌, drop, slice_range};
ghost use Rattle.bits.specs.Bits.{run, bits_in};

use crate::first;
use program_io::{load, write_all};
use std::io::Read;

// A message, and the bitmap that is lent with it: its number and its octets.
#[derive(Clone, Copy)]
pub struct Message<'a> {
    pub octets: &'a [u8],
    pub number: u16,
    pub store: &'a [u8],
}

// The length in octets k to k + 2 of a head.
pub fn size(head: &[u8], k: u8) -> usize
    ensures { result ≡ run (bits_in 8 head.now) ((k - 1) * 8) 24 }
{
    octets::three(head, 0, k) as usize
}

// The length that stands next in a file: of what follows it, or how many follow.
pub fn next_size(file: &mut impl Read) -> usize
    ensures { result < 2 ^ 24 }
{
    let mut head = [0u8; 3];
    load(file, &mut head, 0, 3);
    size(&head, 1)
}

// Reads a lent bitmap and a message, each into its room. A head has in octets 1-2 the bitmap's number, 3-5 how many
// octets it has, 6-8 how many octets the message has, 9-11 how many of them stand first in the file, 12-14 the place
// from which on the others stand there; those in between stay.
pub fn load_message(file: &mut impl Read, head: &[u8], store: &mut [u8], message: &mut [u8])
    ensures store_after { let n = run (bits_in 8 head.now) (2 * 8) 24 in drop n store.new ≡ drop n store.old }
    ensures between { let from = run (bits_in 8 head.now) (8 * 8) 24 in
        let to = run (bits_in 8 head.now) (11 * 8) 24 in
        slice_range message.new from to ≡ slice_range message.old from to }
{
    load(file, store, 0, size(head, 3));
    load(file, message, 0, size(head, 9));
    load(file, message, size(head, 12), size(head, 6));
}

// Prints a vector's name: in a file its length in one octet, and its octets.
pub fn print_name(rt: &impl Print, file: &mut impl Read) {
    let mut len = [0u8; 1];
    let mut name = [0u8; 255];
    load(file, &mut len, 0, 1);
    let n = len[0] as usize;
    load(file, &mut name, 0, n);
    write_all(rt, first(&name, n));
}
