// What is printed, one space before each thing.
//
// A refusal by the writer or the packer: its number, 0 octets, `kept` where the lent ones are as they were. A message:
// 0; its length; its octets as one number; `kept` where the octets after it are as they were; of a written one `back`
// where reading it gives the parts, values and marks back; of a packed one E, R and the check's reply. The check: its
// reply. Where a reply tells a section and a place, they stand after it.
use rules::{Refusal, Scale};
use vector_io::{Octets, added, first, hex, kept, reply, say};

// E and R.
pub(crate) fn scale(rt: &impl Print, c: Scale) {
    say(rt, c.e.value);
    hex(rt, c.r);
}

// Octets as one number: from 1 on, the sum so far with each octet.
fn summed(s: &[u8]) -> u32 {
    s.iter().fold(1, |sum, x| added(sum, *x as u32))
}

// Whether the octets from n on are as they were.
fn after(rt: &impl Print, out: &[u8], n: usize) {
    let same = kept::<Octets>(out, n);
    say(rt, if same { "kept" } else { "changed" });
}

// The reply and the length; of a message its octets too, and whether those after it, or on a refusal all, are as they
// were.
pub(crate) fn written(rt: &impl Print, w: Result<u32, Refusal>, out: &[u8]) {
    match w {
        Ok(len) => {
            say(rt, 0u32);
            say(rt, len);
            hex(rt, summed(first(out, len as usize)));
            after(rt, out, len as usize);
        }
        Err(r) => {
            reply(rt, r);
            say(rt, 0u32);
            after(rt, out, 0);
        }
    }
}
