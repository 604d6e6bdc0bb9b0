// Reading a field: its header, and n values and n marks into lent lists. Total: replies 1 to 12 are the message's own,
// 14 says that a list is too short, and on a refusal nothing lent changes.
#![tactic(auto)]

ghost use Rattle.std.specs.Prelude.{◌≡◌};
ghost use Rattle.rules.specs.Answers.{header_reply};
ghost use Rattle.rules.specs.Reading.{read_of, the_values_after, the_marks_after};
ghost use Rattle.rules.specs.Bitmap.{lent_as};

mod lists; // lists.rt: values and marks by the kind of bitmap
mod spread; // spread.rt: values to their points through a bitmap

use crate::lists::fill_lists;
use bitreader::data_place;
use marks::long;
use message::header;
use reply::refuse;
use rules::{Header, Refusal};

// The header of a message, with its values and marks put at the front of the lent lists.
pub fn read(
    s: &[u8],
    number: u16,
    store: &[u8],
    values: &mut [u32],
    marks: &mut [u8],
) -> Result<Header, Refusal>
    ensures value { result ≡
        header_reply (read_of s.now (lent_as number store.now) values.old marks.old) }
    ensures values_after { values.new ≡
        the_values_after s.now (lent_as number store.now) values.old marks.old }
    ensures marks_after { marks.new ≡
        the_marks_after s.now (lent_as number store.now) values.old marks.old }
{
    let h = header(s, number, store)?;
    let n = h.points;
    let short = (values.len() < n as usize) | (marks.len() < long(n));
    refuse(14, short)?;
    let bitmap = h.bitmap;
    let bms = h.places.bms;
    let at = data_place(h.places.bds.start);
    fill_lists(
        s,
        store,
        bitmap,
        bms,
        at,
        h.packing.bits,
        n,
        h.present,
        values,
        marks,
    );
    Ok(h)
}
