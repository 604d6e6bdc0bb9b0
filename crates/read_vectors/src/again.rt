// What was read, written again: whether the message's own octets come back.
ghost use Rattle.std.specs.Prelude.{◌≤◌, length};

use crate::MESSAGE;
use rules::{Form, Header, Refusal};
use vector_io::{Message, first, say};

// How many octets from the first on are the same in both.
fn alike(a: &[u8], b: &[u8]) -> usize
    ensures { result ≤ length a.now }
{
    a.iter().zip(b).take_while(|(x, y)| x == y).count()
}

// `same`, or the first octet that is another one, counted from 1.
fn compare(rt: &impl Print, s: &[u8], again: &[u8]) {
    if s == again {
        say(rt, "same");
    } else {
        say(rt, "differs at");
        say(rt, alike(s, again) as u64 + 1);
    }
}

// What was chosen of the message: its own grid, where it has a grid section, its bitmap and packing.
fn own_form(h: Header) -> Form {
    Form {
        grid: (h.places.gds.len != 0).then_some(h.grid),
        bitmap: h.bitmap,
        packing: h.packing,
    }
}

// Writes what was read of a message with the same bitmap lent.
fn written(
    message: Message<'_>,
    h: Header,
    values: &[u32],
    marks: &[u8],
    out: &mut [u8],
) -> Result<u32, Refusal> {
    let n = h.points as usize;
    writer::write(
        handed_back::section(message.octets, message.number, message.store, 1),
        own_form(h),
        h.scale,
        message.number,
        message.store,
        first(values, n),
        first(marks, n),
        out,
    )
}

// Writes what was read of a message: whether it is the message, or the number that refused it.
pub(crate) fn write_again(
    rt: &impl Print,
    message: Message<'_>,
    h: Header,
    values: &[u32],
    marks: &[u8],
) {
    let mut out = [0u8; MESSAGE];
    match written(message, h, values, marks, &mut out) {
        Ok(len) => compare(rt, message.octets, first(&out, len as usize)),
        Err(r) => {
            say(rt, "refused");
            say(rt, r.number);
        }
    }
}
