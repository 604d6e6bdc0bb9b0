// The packer: a message of a source field, with R the least present number and E the least step for which all X fit.
// Its rows are 5, 18, 15, 11, 19 and then the writer's over the list of X. That list stands nowhere: a block of it is
// made where it is put.
#![tactic(auto)]

ghost use Rattle.std.specs.Prelude.{◌≡◌};
ghost use Rattle.rules.specs.Answers.{judged, length_reply};
ghost use Rattle.rules.specs.Writing.{write_of, output_after};
ghost use Rattle.rules.specs.Packing.{pack_of, packed_after};
ghost use Rattle.writable.specs.Listed.{Listed};
ghost use Rattle.framing.specs.Given.{parts};
ghost use Rattle.packer.specs.Scaled.{scaled_from, pack_rows};
ghost use Rattle.rules.specs.Bitmap.{lent_as};
ghost use Rattle.rules.specs.Checking.{source_as};

mod putting; // putting.rt: X at present points

use data_section::packing_bad;
use framing::lay;
use grid::{grid_from, points, the_grid};
use layout::SEVENS;
use octets::{plain, signed_two};
use puts::put_four;
use putting::put_scaled;
use reply::{refusal, refuse};
use rules::bounds::STEP_MOST;
use rules::{Form, Packing, Refusal, Scale};
use scaling::Choice;
use source::{decimal_differs, source_bad, spelling};
use writable::{judge_marks, pds_bad};

// 5, 18, 15 and 11: the PDS, the source, D of both, and the packing.
#[tactic(auto, unfolding(rules::specs::Answers::judged, crate::specs::Scaled::pack_rows))]
fn judge_source(
    pds: &[u8],
    packing: Packing,
    numbers: &[i32],
    marks: &[u8],
    d: i32,
) -> Result<(), Refusal>
    ensures { result ≡
        judged (pack_rows pds.now packing (source_as numbers.now marks.now d)) }
{
    let own = signed_two(pds, 0, 27);
    refuse(5, pds_bad(pds))?;
    refuse(18, source_bad(numbers, marks))?;
    refuse(15, decimal_differs(own.value, d))?;
    refuse(11, packing_bad(packing))
}

// Writes the message of the list of X for an R and an E.
fn write_scaled(
    pds: &[u8],
    form: Form,
    scale: Scale,
    number: u16,
    store: &[u8],
    numbers: &[i32],
    marks: &[u8],
    choice: Choice,
    out: &mut [u8],
) -> Result<u32, Refusal>
    requires { Listed (scaled_from numbers.now marks.now choice.reference choice.exponent) marks.now
        form.packing.bits }
    ensures value { result ≡
        length_reply
        (write_of
        (parts pds.now form scale number store.now
        (scaled_from numbers.now marks.now choice.reference choice.exponent)
        marks.now) out.old) }
    ensures out_after { out.new ≡
        output_after
        (parts pds.now form scale number store.now
        (scaled_from numbers.now marks.now choice.reference choice.exponent)
        marks.now) out.old }
{
    let grid = form.grid;
    let found = grid_from(grid, pds, 0);
    let n = points(the_grid(found));
    judge_marks(
        pds,
        form,
        scale,
        number,
        store,
        numbers.len(),
        marks,
        found,
        n,
    )?;
    let Some(frame) = lay(pds, form, scale, marks, n, out) else {
        return Err(refusal(14));
    };
    let at = frame.at;
    let end = frame.len as usize - 4;
    put_scaled(
        numbers,
        marks,
        choice,
        form.packing.bits,
        frame.present,
        &mut out[at..],
    );
    put_four(out, end, 1, SEVENS);
    Ok(frame.len)
}

// Packs a source field, V and marks at a D, into a message of a PDS, a form and the lent bitmap of a number. Answers
// its length.
pub fn pack(
    pds: &[u8],
    form: Form,
    number: u16,
    store: &[u8],
    numbers: &[i32],
    marks: &[u8],
    d: i32,
    out: &mut [u8],
) -> Result<u32, Refusal>
    ensures value { result ≡
        length_reply
        (pack_of pds.now form (lent_as number store.now)
        (source_as numbers.now marks.now d) out.old) }
    ensures out_after { out.new ≡
        packed_after pds.now form (lent_as number store.now)
        (source_as numbers.now marks.now d) out.old }
{
    let packing = form.packing;
    judge_source(pds, packing, numbers, marks, d)?;
    let choice = scaling::choose(numbers, marks, packing.bits);
    let e = choice.exponent;
    if (STEP_MOST as u8) < e {
        return Err(refusal(19));
    }
    let r = choice.reference;
    let scale = Scale {
        e: plain(e as i32),
        r: spelling(r),
    };
    write_scaled(pds, form, scale, number, store, numbers, marks, choice, out)
}
