// Whether reading a message gives back the parts that it was written of: grid, bitmap, packing, E and R, the PDS, every
// value and mark.
use crate::fields::{form, number, scale};
use crate::{POINTS, Vector};
use rules::{Form, Grid, Header, Scale};
use vector_io::say;

// The grid given is the message's; where none was, it has no grid section.
fn grid_back(given: Option<Grid>, h: Header) -> bool {
    match given {
        None => h.places.gds.len == 0,
        Some(g) => h.places.gds.len != 0 && g == h.grid,
    }
}

// Whether a header says the form and the scale that were given.
fn header_back(h: Header, form: Form, scale: Scale) -> bool {
    grid_back(form.grid, h)
        && form.bitmap == h.bitmap
        && form.packing == h.packing
        && scale == h.scale
}

// A message read again beside the parts that it was written of: `back` or `lost`.
pub(crate) fn read_back(rt: &impl Print, s: &[u8], vector: Vector<'_>) {
    let mut values = [0u32; POINTS];
    let mut marks = [0u8; POINTS];
    let lent = number(vector.fields);
    let read = field::read(s, lent, vector.store, &mut values, &mut marks);
    let pds = handed_back::section(s, lent, vector.store, 1);
    let lists = values.starts_with(vector.numbers) && marks.starts_with(vector.marks);
    let same = match read {
        Err(_) => false,
        Ok(h) => {
            let points = h.points as usize;
            header_back(h, form(vector.fields), scale(vector.fields))
                && pds == vector.octets
                && points == vector.numbers.len()
                && points == vector.marks.len()
                && lists
        }
    };
    say(rt, if same { "back" } else { "lost" });
}
