// All of a message but its values, laid down in lent octets: the indicator, the sections before the data, and what
// stands in the data section before the data. Whoever lends the octets then puts the values and, last, '7777': a loop
// that puts values may store zeros past the data. And how many octets the whole will take, before any are lent.
#![tactic(auto)]

ghost use Rattle.std.specs.Prelude.{◌≡◌, length};
ghost use Rattle.rules.specs.Answers.{length_reply};
ghost use Rattle.rules.specs.Writing.{length_for};
ghost use Rattle.framing.specs.Framing.{the_given_bad, frame_in_room, framed};
ghost use Rattle.rules.specs.Bitmap.{lent_as};

mod laying; // laying.rt: the sections octet by octet
mod rooms; // rooms.rt: how many octets each takes

use grid::{grid_bad, grid_from, points, the_grid};
use laying::{lay_front, put_head};
use marks::count;
use octets::plain;
use rooms::{BDS_OCTETS, message_room};
use rules::bounds::{PDS_MOST, POINTS_MOST};
use rules::{Form, Grid, Refusal, Scale};
use writable::{judge_marks, scale_bad};

// Where the data begin, how many points are present, and how long the message is.
#[derive(Clone, Copy)]
pub struct Frame {
    pub at: usize,
    pub present: u32,
    pub len: u32,
}

// Whether a grid is given that 9 refuses.
fn given_bad(grid: Option<Grid>) -> bool
    ensures { result ≡ the_given_bad grid }
{
    match grid {
        None => false,
        Some(g) => grid_bad(g),
    }
}

// Lays down all but the values of a message of a PDS, a form, E and R, and the marks of n points, of which 1 is
// present. Parts out of the rules' bounds, and octets that the whole message does not fit in, are left alone.
pub fn lay(
    pds: &[u8],
    form: Form,
    scale: Scale,
    marks: &[u8],
    n: u32,
    out: &mut [u8],
) -> Option<Frame>
    ensures value { result ≡ frame_in_room pds.now form scale marks.now n (length out.old) }
    ensures out_after { out.new ≡
        framed pds.now form scale marks.now n out.old }
{
    let grid = form.grid;
    let packing = form.packing;
    if ((PDS_MOST as usize) < pds.len())
        | (POINTS_MOST < n)
        | given_bad(grid)
        | scale_bad(scale, packing)
    {
        return None;
    }
    let m = count(marks, n);
    let len = message_room(pds.len(), form, n, m);
    if out.len() < len {
        return None;
    }
    let d = lay_front(pds, form, marks, n, len as u32, out);
    put_head(packing, scale, m, out, d);
    Some(Frame {
        at: d + BDS_OCTETS,
        present: m,
        len: len as u32,
    })
}

// How many octets the message takes of a PDS, a form, the lent bitmap of a number and marks, whatever its E, R and
// values will be; or the reply of the row but 14 that refuses them whatever these are.
pub fn message_length(
    pds: &[u8],
    form: Form,
    number: u16,
    store: &[u8],
    marks: &[u8],
) -> Result<u32, Refusal>
    ensures { result ≡
        length_reply (length_for pds.now form (lent_as number store.now) marks.now) }
{
    let grid = form.grid;
    let found = grid_from(grid, pds, 0);
    let n = points(the_grid(found));
    let scale = Scale { e: plain(0), r: 0 };
    judge_marks(pds, form, scale, number, store, n as usize, marks, found, n)?;
    let m = count(marks, n);
    Ok(message_room(pds.len(), form, n, m) as u32)
}
