// Refusals 18, 15, 16 and 17 of a message whose own refusals, 1 to 12, have passed. Each is judged once those before it
// have passed.
ghost use Rattle.std.specs.Prelude.{◌≡◌};
ghost use Rattle.std.specs.Prelude.{Ok};
ghost use Rattle.rules.specs.Answers.{judged, header_reply};
ghost use Rattle.rules.specs.Reading.{header_of};
ghost use Rattle.checker.specs.Stages.{check_rows};
ghost use Rattle.rules.specs.Bitmap.{lent_as};
ghost use Rattle.rules.specs.Checking.{source_as};

use crate::points::{any_far, marks_differ};
use crate::steps::{scale_bad, step_of};
use bitreader::data_place;
use reply::refuse;
use rules::{Header, Refusal};
use source::{decimal_differs, source_bad, whole_of};

// Rows 18, 15, 16 and 17.
#[tactic(auto, unfolding(rules::specs::Answers::judged, crate::specs::Stages::check_rows))]
pub(crate) fn judge(
    s: &[u8],
    number: u16,
    store: &[u8],
    h: Header,
    numbers: &[i32],
    marks: &[u8],
    d: i32,
) -> Result<(), Refusal>
    requires { Ok h ≡ header_reply (header_of s.now (lent_as number store.now)) }
    ensures { result ≡
        judged
        (check_rows s.now (lent_as number store.now)
        (source_as numbers.now marks.now d)) }
{
    refuse(18, source_bad(numbers, marks))?;
    let n = numbers.len() as u32;
    let places = h.places;
    let bitmap = h.bitmap;
    let packing = h.packing;
    let scale = h.scale;
    let unlike = marks_differ(s, store, places.bms, bitmap, marks, n);
    let differ = (n != h.points) | unlike | decimal_differs(h.d.value, d);
    refuse(15, differ)?;
    refuse(16, scale_bad(scale))?;
    let from = data_place(places.bds.start);
    let out = any_far(
        s,
        numbers,
        marks,
        from,
        packing.bits,
        whole_of(scale.r),
        step_of(scale),
    );
    refuse(17, out)
}
