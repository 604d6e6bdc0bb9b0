// Rows 5 to 13 of the writer's table over the parts given: which message may be written.
#![tactic(auto)]

ghost use Rattle.std.specs.Prelude.{◌≡◌, ◌&&◌, eqb, length};
ghost use Rattle.rules.specs.declared.Bitmap.TheVariants.{Stored};
ghost use Rattle.rules.specs.Bounds.{exponent_most};
ghost use Rattle.rules.specs.Numbers.{beyond};
ghost use Rattle.rules.specs.Table.{any_of};
ghost use Rattle.rules.specs.Answers.{judged};
ghost use Rattle.rules.specs.Places.{the_has_grid, the_has_bitmap};
ghost use Rattle.rules.specs.Bitmap.{the_bitmap_given, marks_long, lent_as};
ghost use Rattle.rules.specs.Writing.{pds_faults, stored_faults, the_grid_given};
ghost use Rattle.marks.specs.Marks.{strays};
ghost use Rattle.writable.specs.Rows.{front_rows, exponent_faults, middle_rows, early_rows, the_points_bad};
ghost use Rattle.writable.specs.Rows.{list_faults};
ghost use Rattle.writable.specs.Rows.{own_rows, ForAny};

mod unlisted; // unlisted.rt: the same by the marks alone, of values in no list

use choices::pick;
use data_section::packing_bad;
use grid::{grid_bad, grid_missing, the_grid};
use marks::{long, stray, unlike};
use octets::{octet, three};
use reply::refuse;
use rules::bounds::{EXPONENT_MOST, PDS_LEAST, PDS_MOST};
use rules::{Bitmap, Form, Grid, Packing, Refusal, Scale, Signed};
use time::time_bad;
pub use unlisted::judge_marks;
use unlisted::marks_off;
use widths::all_below;

// 5: the PDS's length, and its octets 1-3.
pub fn pds_bad(pds: &[u8]) -> bool
    ensures { result ≡ any_of (pds_faults pds.now) }
{
    (pds.len() % 2 == 1)
        | ((pds.len() < PDS_LEAST as usize) | ((PDS_MOST as usize) < pds.len()))
        | (three(pds, 0, 1) as usize != pds.len())
}

// Rows 5, 6, 7 and 9: the PDS, its time, and the grid.
#[tactic(auto, unfolding(rules::specs::Answers::judged, crate::specs::Rows::front_rows))]
fn front(pds: &[u8], found: Option<Grid>) -> Result<(), Refusal>
    ensures { result ≡ judged (front_rows pds.now found) }
{
    refuse(5, pds_bad(pds))?;
    refuse(6, time_bad(pds, 0))?;
    refuse(7, grid_missing(found))?;
    refuse(9, grid_bad(the_grid(found)))
}

// Whether so many values, and the marks, are those of n points.
pub(crate) fn lists_fit(many: usize, marks: &[u8], n: u32) -> bool
    ensures { result ≡ eqb many n && eqb (length marks.now) (marks_long n) }
{
    (many == n as usize) & (marks.len() == long(n))
}

// 10, of a form that wants the stored bitmap of a number.
fn store_bad(number: u16, store: &[u8], wanted: u16, long: usize, marks: &[u8], n: u32) -> bool
    ensures { ForAny long (λ values. result ≡
        any_of (stored_faults (Stored wanted) (lent_as number store.now) values marks.now n)) }
{
    if (wanted == 0) | (number != wanted) | (store.len() < (n as usize + 7) / 8) {
        return true;
    }
    if lists_fit(long, marks, n) {
        return unlike(store, 0, marks, n);
    }
    false
}

// 10, of values whose list is so long.
fn stored_bad(bitmap: Bitmap, number: u16, store: &[u8], long: usize, marks: &[u8], n: u32) -> bool
    ensures { ForAny long (λ values. result ≡
        any_of (stored_faults bitmap (lent_as number store.now) values marks.now n)) }
{
    match bitmap {
        Bitmap::Without => false,
        Bitmap::Carried => false,
        Bitmap::Stored(wanted) => store_bad(number, store, wanted, long, marks, n),
    }
}

// Of 11, E outside −32,767 to 32,767.
fn exponent_bad(e: Signed) -> bool
    ensures { result ≡ beyond exponent_most e.value }
{
    (EXPONENT_MOST < e.value) | (e.value < -EXPONENT_MOST)
}

// Row 11: E, and the packing.
pub fn scale_bad(scale: Scale, packing: Packing) -> bool
    ensures { result ≡ any_of (exponent_faults scale packing) }
{
    exponent_bad(scale.e) | packing_bad(packing)
}

// 10 and 11, of values whose list is so long.
#[tactic(auto, unfolding(rules::specs::Answers::judged, crate::specs::Rows::middle_rows))]
fn middle(
    form: Form,
    scale: Scale,
    number: u16,
    store: &[u8],
    long: usize,
    marks: &[u8],
    n: u32,
) -> Result<(), Refusal>
    ensures { ForAny long (λ values. result ≡
        judged (middle_rows form scale (lent_as number store.now) values marks.now n)) }
{
    let bitmap = form.bitmap;
    refuse(10, stored_bad(bitmap, number, store, long, marks, n))?;
    refuse(11, scale_bad(scale, form.packing))
}

// 5 to 11, of values whose list is so long. No point is looked at before the grid is taken.
#[tactic(auto, using(reply::proofs::Judged::judged_append), unfolding(crate::specs::Rows::early_rows),)]
pub(crate) fn judge_early(
    pds: &[u8],
    form: Form,
    scale: Scale,
    number: u16,
    store: &[u8],
    long: usize,
    marks: &[u8],
    found: Option<Grid>,
    n: u32,
) -> Result<(), Refusal>
    ensures { ForAny long (λ values. result ≡
        judged
        (early_rows pds.now form scale (lent_as number store.now) values marks.now found
        n)) }
{
    front(pds, found)?;
    middle(form, scale, number, store, long, marks, n)
}

// Whether a value other than 0 stands at an absent point, which is asked only where points may be absent.
fn lost(bitmap: bool, values: &[u32], marks: &[u8], n: u32) -> bool
    ensures { result ≡ bitmap && strays values.now marks.now n }
{
    if bitmap {
        return stray(values, marks, n);
    }
    false
}

// 13, at one of n points. Marks and values each in a loop of their own: lists of one width go through the machine
// faster.
fn points_bad(bitmap: bool, bits: u8, values: &[u32], marks: &[u8], n: u32) -> bool
    requires { length values.now ≡ n }
    ensures { result ≡ the_points_bad bitmap bits values.now marks.now n }
{
    marks_off(bitmap, marks, n) | lost(bitmap, values, marks, n) | !all_below(values, bits)
}

// Whether the PDS at a slice's start announces a grid section.
pub(crate) fn has_grid(pds: &[u8]) -> bool
    ensures { result ≡ the_has_grid pds.now 0 }
{
    128 <= octet(pds, 0, 8)
}

// Whether the PDS announces a BMS.
pub(crate) fn has_bitmap(pds: &[u8]) -> bool
    ensures { result ≡ the_has_bitmap pds.now 0 }
{
    64 <= octet(pds, 0, 8) % 128
}

// Whether a grid is given.
pub(crate) fn grid_given(grid: Option<Grid>) -> bool
    ensures { result ≡ the_grid_given grid }
{
    match grid {
        None => false,
        Some(_) => true,
    }
}

// Whether there is a bitmap.
pub(crate) fn bitmap_given(bitmap: Bitmap) -> bool
    ensures { result ≡ the_bitmap_given bitmap }
{
    match bitmap {
        Bitmap::Without => false,
        Bitmap::Carried => true,
        Bitmap::Stored(_) => true,
    }
}

// Row 13: the lists, their points, and PDS octet 8 beside the parts given.
fn lists_bad(pds: &[u8], form: Form, values: &[u32], marks: &[u8], n: u32) -> bool
    ensures { result ≡ any_of (list_faults pds.now form values.now marks.now n) }
{
    if lists_fit(values.len(), marks, n) {
        let grid = form.grid;
        let bitmap = form.bitmap;
        let ground = grid_given(grid);
        let gaps = bitmap_given(bitmap);
        return points_bad(gaps, form.packing.bits, values, marks, n)
            | pick(has_grid(pds), !ground, ground)
            | pick(has_bitmap(pds), !gaps, gaps);
    }
    true
}

// All rows but 14, of the grid found and its n points. No value is looked at before N is taken.
#[tactic(auto, using(reply::proofs::Judged::judged_append), unfolding(rules::specs::Answers::judged, crate::specs::Rows::own_rows),)]
pub fn judge(
    pds: &[u8],
    form: Form,
    scale: Scale,
    number: u16,
    store: &[u8],
    values: &[u32],
    marks: &[u8],
    found: Option<Grid>,
    n: u32,
) -> Result<(), Refusal>
    ensures { result ≡
        judged
        (own_rows pds.now form scale (lent_as number store.now) values.now
        marks.now found n) }
{
    judge_early(
        pds,
        form,
        scale,
        number,
        store,
        values.len(),
        marks,
        found,
        n,
    )?;
    refuse(13, lists_bad(pds, form, values, marks, n))
}
