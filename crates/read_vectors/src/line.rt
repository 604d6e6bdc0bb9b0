// What is printed of an answer, one space before each thing.
//
// A refusal: its number; where it tells a section and a place, these; `zeros` where all else in C's record of it is
// zero; `kept` where the lists are as they were. An acceptance: 0; points, present, Ni, Nj; D, E, R, N, flags; the
// bitmap's kind; year, month, day, hour, minute; La1, Lo1, resolution flags, La2, Lo2, Di, Dj, scanning flags; of a
// thinned octant where its counts begin; row and column of the first two points; the sum of values and marks; `kept`
// where the elements after n are as they were.

use chart::{shape_of, spot_of};
use kinds::figures_of;
use records::{GridRecord, HeaderRecord, PartRecord, header_record};
use rules::{Bitmap, Figures, Geometry, Grid, GridPoint, Header, Moment, Refusal, Shape, Start};
use vector_io::{Marks, Numbers, added, hex, kept, reply, say};

// The bitmap's kind, and a stored one's number.
fn kind(rt: &impl Print, bitmap: Bitmap) {
    match bitmap {
        Bitmap::Without => say(rt, "without"),
        Bitmap::Carried => say(rt, "carried"),
        Bitmap::Stored(k) => {
            say(rt, "stored");
            say(rt, k);
        }
    }
}

// Year, month, day, hour and minute.
fn moment(rt: &impl Print, t: Moment) {
    say(rt, t.year);
    say(rt, t.month);
    say(rt, t.day);
    say(rt, t.hour);
    say(rt, t.minute);
}

// Corners, resolution flags, steps and scanning flags of a grid.
fn corners(rt: &impl Print, g: Grid, x: Figures) {
    say(rt, g.la1.value);
    say(rt, g.lo1.value);
    say(rt, g.flags);
    say(rt, x.la2.value);
    say(rt, x.lo2.value);
    say(rt, x.di);
    say(rt, x.dj);
    say(rt, g.scan);
}

// LoV, the latitudes at which a cylinder or a cone cuts the earth, and the southern pole.
fn angles(rt: &impl Print, x: Figures) {
    say(rt, x.lov.value);
    say(rt, x.latin1.value);
    say(rt, x.latin2.value);
    say(rt, x.pole_la.value);
    say(rt, x.pole_lo.value);
}

// What a grid has that is no latitude/longitude grid, by its kind's name.
fn projected(rt: &impl Print, name: &str, x: Figures) {
    say(rt, name);
    say(rt, x.dx);
    say(rt, x.dy);
    angles(rt, x);
    say(rt, x.centre);
    say(rt, x.circles);
}

// Where the counts of a thinned octant begin.
fn counted(rt: &impl Print, start: Start) {
    match start {
        Start::Equator => say(rt, "equator"),
        Start::Pole => say(rt, "pole"),
        Start::Neither => say(rt, "neither"),
    }
}

// What only its own kind of grid has.
fn own(rt: &impl Print, geometry: Geometry, x: Figures) {
    match geometry {
        Geometry::LatLon(_) => {}
        Geometry::Thinned(octant) => counted(rt, octant.start),
        Geometry::Mercator(_) => projected(rt, "mercator", x),
        Geometry::Lambert(_) => projected(rt, "lambert", x),
        Geometry::Gaussian(_) => projected(rt, "gaussian", x),
        Geometry::Polar(_) => projected(rt, "polar", x),
    }
}

// Row and column of point k, or `off`.
fn spot(rt: &impl Print, g: Shape, k: u32) {
    match spot_of(g, GridPoint(k)) {
        Some(at) => {
            say(rt, at.row);
            say(rt, at.column);
        }
        None => say(rt, "off"),
    }
}

// `kept` where the elements from n on are as they were.
fn lists(rt: &impl Print, values: &[u32], marks: &[u8], n: usize) {
    let same = kept::<Numbers>(values, n) && kept::<Marks>(marks, n);
    say(rt, if same { "kept" } else { "changed" });
}

// Values and marks as one number: from 1 on, the sum so far with 2 times the value, and the mark.
fn summed(values: &[u32], marks: &[u8]) -> u32 {
    values.iter().zip(marks).fold(1, |sum, (value, mark)| {
        let point = value.wrapping_mul(2).wrapping_add(*mark as u32);
        added(sum, point)
    })
}

// The sum, where the lists have n elements, as an accepted message's have.
fn sum(rt: &impl Print, values: &[u32], marks: &[u8], n: usize) {
    if n <= values.len() && n <= marks.len() {
        hex(rt, summed(&values[..n], &marks[..n]));
    }
}

// All of an accepted answer.
fn taken(rt: &impl Print, h: Header, values: &[u32], marks: &[u8]) {
    let g = h.grid;
    let figures = figures_of(g.geometry);
    let shape = shape_of(g);
    let n = h.points as usize;
    say(rt, h.points);
    say(rt, h.present);
    say(rt, g.ni);
    say(rt, g.nj);
    say(rt, h.d.value);
    say(rt, h.scale.e.value);
    hex(rt, h.scale.r);
    say(rt, h.packing.bits);
    say(rt, h.packing.flags);
    kind(rt, h.bitmap);
    moment(rt, h.time);
    corners(rt, g, figures);
    own(rt, g.geometry, figures);
    spot(rt, shape, 0);
    spot(rt, shape, 1);
    sum(rt, values, marks, n);
    lists(rt, values, marks, n);
}

// Whether a part is zeros.
fn no_part(p: PartRecord) -> bool {
    p.stored == 0 && p.start == 0 && p.len == 0
}

// Whether a grid is zeros.
fn no_grid(g: GridRecord) -> bool {
    g.la1 == 0
        && g.lo1 == 0
        && g.la2 == 0
        && g.lo2 == 0
        && g.lov == 0
        && g.latin1 == 0
        && g.latin2 == 0
        && g.pole_la == 0
        && g.pole_lo == 0
        && g.dx == 0
        && g.dy == 0
        && g.ni == 0
        && g.nj == 0
        && g.di == 0
        && g.dj == 0
        && g.circles == 0
        && g.resolution == 0
        && g.scan == 0
        && g.rows == 0
        && g.kind == 0
        && g.centre == 0
}

// Whether a time is zeros.
fn no_time(h: HeaderRecord) -> bool {
    h.year == 0 && h.month == 0 && h.day == 0 && h.hour == 0 && h.minute == 0
}

// "all counts and fields zero": all but the reply, the section and the place.
fn zeros(h: HeaderRecord) -> bool {
    h.points == 0
        && h.present == 0
        && h.d == 0
        && h.e == 0
        && h.r == 0
        && h.bitmap == 0
        && h.bitmap_number == 0
        && no_grid(h.grid)
        && no_part(h.pds)
        && no_part(h.gds)
        && no_part(h.bms)
        && no_part(h.bds)
        && no_time(h)
        && h.packing_flags == 0
        && h.bits == 0
}

// The whole answer: its reply, and what goes with it.
pub(crate) fn answer(
    rt: &impl Print,
    answer: Result<Header, Refusal>,
    values: &[u32],
    marks: &[u8],
) {
    match answer {
        Ok(h) => {
            say(rt, 0u32);
            taken(rt, h, values, marks);
        }
        Err(r) => {
            reply(rt, r);
            if zeros(header_record(answer)) {
                say(rt, "zeros");
            }
            lists(rt, values, marks, 0);
        }
    }
}
