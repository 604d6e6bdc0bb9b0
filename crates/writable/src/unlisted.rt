// Rows 5 to 13 by the marks alone: what is left to judge of so many values, known to be 0 at absent points and below
// 2^N. The packer's X are such values, and stand in no list.
ghost use Rattle.std.specs.Prelude.{◌≡◌};
ghost use Rattle.rules.specs.Table.{any_of};
ghost use Rattle.rules.specs.Answers.{judged};
ghost use Rattle.writable.specs.Rows.{list_faults, zeros, the_marks_off, mark_rows};
ghost use Rattle.rules.specs.Bitmap.{lent_as};

use crate::{bitmap_given, grid_given, has_bitmap, has_grid, judge_early, lists_fit};
use choices::pick;
use marks::{all_present, odd};
use reply::refuse;
use rules::{Form, Grid, Refusal, Scale};

// 13, at one of n points, by its mark: where points may be absent a mark not 0 or 1, and elsewhere one that is not 1.
pub(crate) fn marks_off(bitmap: bool, marks: &[u8], n: u32) -> bool
    ensures { result ≡ the_marks_off bitmap marks.now n }
{
    if bitmap {
        return odd(marks, n);
    }
    !all_present(marks, n)
}

// Row 13 by the marks alone.
fn marks_bad(pds: &[u8], form: Form, long: usize, marks: &[u8], n: u32) -> bool
    ensures { result ≡ any_of (list_faults pds.now form (zeros long) marks.now n) }
{
    if lists_fit(long, marks, n) {
        let grid = form.grid;
        let bitmap = form.bitmap;
        let ground = grid_given(grid);
        let gaps = bitmap_given(bitmap);
        return marks_off(gaps, marks, n)
            | pick(has_grid(pds), !ground, ground)
            | pick(has_bitmap(pds), !gaps, gaps);
    }
    true
}

// All rows but 14, of the grid found and its n points, for so many values.
#[tactic(auto, using(reply::proofs::Judged::judged_append, crate::proofs::Marked::length_zeros), unfolding(rules::specs::Answers::judged, crate::specs::Rows::own_rows, crate::specs::Rows::mark_rows,),)]
pub fn judge_marks(
    pds: &[u8],
    form: Form,
    scale: Scale,
    number: u16,
    store: &[u8],
    long: usize,
    marks: &[u8],
    found: Option<Grid>,
    n: u32,
) -> Result<(), Refusal>
    ensures { result ≡
        judged
        (mark_rows pds.now form scale (lent_as number store.now) long marks.now found
        n) }
{
    judge_early(pds, form, scale, number, store, long, marks, found, n)?;
    refuse(13, marks_bad(pds, form, long, marks, n))
}
