// The writer: a message of the parts given, into lent octets. It refuses by rows 5, 6, 7, 9, 10, 11, 13 and 14 of the
// table, and a refusal writes nothing.
#![tactic(auto)]

ghost use Rattle.std.specs.Prelude.{◌≡◌};
ghost use Rattle.rules.specs.Answers.{length_reply};
ghost use Rattle.rules.specs.Writing.{write_of, output_after};
ghost use Rattle.framing.specs.Given.{parts};

mod present_values; // present_values.rt: the values at present points

use framing::lay;
use grid::{grid_from, points, the_grid};
use layout::SEVENS;
use present_values::put_values;
use puts::put_four;
use reply::refusal;
use rules::{Form, Refusal, Scale};
use writable::judge;

// Writes the message of a PDS, a form, E and R, the lent bitmap of a number, and lists of values and marks. Answers its
// length.
pub fn write(
    pds: &[u8],
    form: Form,
    scale: Scale,
    number: u16,
    store: &[u8],
    values: &[u32],
    marks: &[u8],
    out: &mut [u8],
) -> Result<u32, Refusal>
    ensures value { result ≡
        length_reply
        (write_of
        (parts pds.now form scale number store.now values.now marks.now)
        out.old) }
    ensures out_after { out.new ≡
        output_after
        (parts pds.now form scale number store.now values.now marks.now)
        out.old }
{
    let grid = form.grid;
    let found = grid_from(grid, pds, 0);
    let n = points(the_grid(found));
    judge(pds, form, scale, number, store, values, marks, found, n)?;
    let Some(frame) = lay(pds, form, scale, marks, n, out) else {
        return Err(refusal(14));
    };
    let at = frame.at;
    let end = frame.len as usize - 4;
    put_values(
        values,
        marks,
        form.packing.bits,
        frame.present,
        &mut out[at..],
    );
    put_four(out, end, 1, SEVENS);
    Ok(frame.len)
}
