// The cursor beside reading: at every place of the chart what reading gives, and 24 past the end of each row, past the
// last row, and far outside.
use crate::POINTS;
use chart::{row_long, rows_on, shape_of, spot_of};
use rules::{GridPoint, Header, Refusal, Shape, Spot};
use vector_io::{Message, say};

// The most that a row or a column can be.
const MOST: u32 = 4294967295;

// What stands under a place, by an index of the message.
pub(crate) fn under(message: Message<'_>, index: &[u32], at: Spot) -> Result<Option<u32>, Refusal> {
    cursor::under(message.octets, message.number, message.store, index, at)
}

// Whether a place has what reading gave its point: the value where the mark is 1, absence where it is 0.
fn same(u: Result<Option<u32>, Refusal>, value: u32, mark: u8) -> bool {
    match mark {
        0 => u == Ok(None),
        1 => u == Ok(Some(value)),
        _ => false,
    }
}

// Whether the place of grid point k has what reading gave the point.
fn point_same(
    message: Message<'_>,
    index: &[u32],
    g: Shape,
    k: u32,
    values: &[u32],
    marks: &[u8],
) -> bool {
    let i = k as usize;
    match spot_of(g, GridPoint(k)) {
        Some(at) if i < values.len() && i < marks.len() => {
            same(under(message, index, at), values[i], marks[i])
        }
        _ => false,
    }
}

// The first of n grid points whose place has something else than reading gave it; n where none has.
fn first_other(
    message: Message<'_>,
    index: &[u32],
    g: Shape,
    n: u32,
    values: &[u32],
    marks: &[u8],
) -> u32 {
    (0..n)
        .find(|k| !point_same(message, index, g, *k, values, marks))
        .unwrap_or(n)
}

// Whether a place is refused by 24, and nothing beside is told.
fn place_off(message: Message<'_>, index: &[u32], row: u32, column: u32) -> bool {
    under(message, index, Spot { row, column }) == Err(reply::refusal(24))
}

// The first of the chart's rows after whose last point there is a place that is not refused; how many rows there are
// where there is none.
fn first_on(message: Message<'_>, index: &[u32], g: Shape, rows: u32) -> u32 {
    (0..rows)
        .find(|row| !place_off(message, index, *row, row_long(g, *row)))
        .unwrap_or(rows)
}

// Whether the place past the last row is refused, and the far ones.
fn far_off(message: Message<'_>, index: &[u32], rows: u32) -> bool {
    place_off(message, index, rows, 0)
        && place_off(message, index, MOST, 0)
        && place_off(message, index, 0, MOST)
        && place_off(message, index, MOST, MOST)
}

// `same` and how many places were compared, or the first grid point that differs.
fn tell_same(rt: &impl Print, k: u32, n: u32) {
    if k == n {
        say(rt, "same");
    } else {
        say(rt, "differs at");
    }
    say(rt, k);
}

// `off` and how many places outside were asked for, or the row of one that is not refused.
fn tell_off(rt: &impl Print, row: u32, rows: u32, far: bool) {
    if row == rows && far {
        say(rt, "off");
        say(rt, rows as u64 + 4);
    } else {
        say(rt, "on in row");
        say(rt, row);
    }
}

// The places of an accepted message.
fn tell(
    rt: &impl Print,
    message: Message<'_>,
    index: &[u32],
    h: Header,
    values: &[u32],
    marks: &[u8],
) {
    let n = h.points;
    let g = shape_of(h.grid);
    let rows = rows_on(g);
    tell_same(rt, first_other(message, index, g, n, values, marks), n);
    tell_off(
        rt,
        first_on(message, index, g, rows),
        rows,
        far_off(message, index, rows),
    );
}

// A message that is taken: all places of its chart by an index, beside what reading gives.
pub(crate) fn compare(rt: &impl Print, message: Message<'_>, index: &[u32]) {
    let mut values = [0u32; POINTS];
    let mut marks = [0u8; POINTS];
    let read = field::read(
        message.octets,
        message.number,
        message.store,
        &mut values,
        &mut marks,
    );
    match read {
        Ok(h) => tell(rt, message, index, h, &values, &marks),
        Err(_) => say(rt, "refused"),
    }
}
