// A vector's fields, 83 octets: 1 the call; 2 whether a grid is given, 3-28 the grid; 29 the bitmap's kind, 30-31 its
// number; 32 flags; 33 N; 34-37 E; 38-41 R; 42-45 D; 46-47 the lent bitmap's number; 48-50 how many octets are lent for
// the message; 51 how the grid's rows are counted; 52 the grid's kind, 53-60 its steps in metres, 61-80 its other
// angles, 81 the projection centre flag, 82-83 a Gaussian grid's N. Of E, D and angles, one below 0 stands there as
// 2^31 and how far it is below -1.
use kinds::geometry_of;
use octets::{four, octet, plain, two};
use rules::{Bitmap, Figures, Form, Grid, Packing, Scale, Signed};
use vector_io::size;

pub(crate) const FIELDS: usize = 83;

// The calls: by octet 1, 0 the writer, 1 the check, any other the packer.
pub(crate) enum Call {
    Write,
    Check,
    Pack,
}

// A number with its sign.
pub(crate) fn lowered(x: u32) -> i32 {
    if x < 2147483648 {
        return x as i32;
    }
    !((x - 2147483648) as i32)
}

// A number with its sign, from octet k on.
fn signed(fields: &[u8], k: u8) -> Signed {
    plain(lowered(four(fields, 0, k)))
}

// Which call it is.
pub(crate) fn asked(fields: &[u8]) -> Call {
    match octet(fields, 0, 1) {
        0 => Call::Write,
        1 => Call::Check,
        _ => Call::Pack,
    }
}

// What only its own kind of grid has.
fn figures(fields: &[u8]) -> Figures {
    Figures {
        kind: octet(fields, 0, 52),
        rows: octet(fields, 0, 51),
        la2: signed(fields, 16),
        lo2: signed(fields, 20),
        di: two(fields, 0, 24),
        dj: two(fields, 0, 26),
        dx: four(fields, 0, 53),
        dy: four(fields, 0, 57),
        lov: signed(fields, 61),
        latin1: signed(fields, 65),
        latin2: signed(fields, 69),
        pole_la: signed(fields, 73),
        pole_lo: signed(fields, 77),
        centre: octet(fields, 0, 81),
        circles: two(fields, 0, 82),
    }
}

// The grid.
fn grid(fields: &[u8]) -> Grid {
    Grid {
        ni: two(fields, 0, 3),
        nj: two(fields, 0, 5),
        la1: signed(fields, 7),
        lo1: signed(fields, 11),
        flags: octet(fields, 0, 15),
        scan: octet(fields, 0, 28),
        geometry: geometry_of(figures(fields)),
    }
}

// The grid, where one is given.
fn found(fields: &[u8]) -> Option<Grid> {
    (octet(fields, 0, 2) != 0).then_some(grid(fields))
}

// The bitmap by its kind.
fn bitmap(fields: &[u8]) -> Bitmap {
    match octet(fields, 0, 29) {
        0 => Bitmap::Without,
        1 => Bitmap::Carried,
        _ => Bitmap::Stored(two(fields, 0, 30)),
    }
}

// Flags and N.
fn packing(fields: &[u8]) -> Packing {
    Packing {
        flags: octet(fields, 0, 32),
        bits: octet(fields, 0, 33),
    }
}

// Grid, bitmap and packing.
pub(crate) fn form(fields: &[u8]) -> Form {
    Form {
        grid: found(fields),
        bitmap: bitmap(fields),
        packing: packing(fields),
    }
}

// E and R.
pub(crate) fn scale(fields: &[u8]) -> Scale {
    Scale {
        e: signed(fields, 34),
        r: four(fields, 0, 38),
    }
}

// D.
pub(crate) fn decimal(fields: &[u8]) -> i32 {
    lowered(four(fields, 0, 42))
}

// The lent bitmap's number.
pub(crate) fn number(fields: &[u8]) -> u16 {
    two(fields, 0, 46)
}

// How many octets are lent for the message.
pub(crate) fn room(fields: &[u8]) -> usize {
    size(fields, 48)
}
