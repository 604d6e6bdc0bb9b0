// The catalogue: "Without a GDS, PDS octet 7 picks from this catalogue; resolution flags are 128, our own setting". A
// constant table of the grids' numbers, searched by grid number; and whether a grid is one of its octants. Total: a
// number that it does not have has no grid.
#![tactic(auto)]

ghost use Rattle.std.specs.Prelude.{◌≡◌, ◌==◌, find, option_map};
ghost use Rattle.std.specs.List.{list_any};
ghost use Rattle.rules.specs.Grid.{octants, catalogue, lookup, same_grid, like_one};
ghost use Rattle.catalogue.specs.Rows.{stands_for};

use kinds::geometry_by;
use octets::plain;
use rules::{Edges, Grid};

// A row of the table.
#[derive(Clone, Copy)]
struct Numbers {
    number: u8,
    ni: u16,
    nj: u16,
    la1: i32,
    lo1: i32,
    la2: i32,
    lo2: i32,
    di: u16,
    dj: u16,
    scan: u8,
    rows: u8,
}

// Document 01's seven grids, then the octants of document 02.
static CATALOGUE: [Numbers; 15] = [
    Numbers {
        number: 2,
        ni: 144,
        nj: 73,
        la1: 90000,
        lo1: 0,
        la2: -90000,
        lo2: 357500,
        di: 2500,
        dj: 2500,
        scan: 0,
        rows: 0,
    },
    Numbers {
        number: 3,
        ni: 360,
        nj: 181,
        la1: 90000,
        lo1: 0,
        la2: -90000,
        lo2: 359000,
        di: 1000,
        dj: 1000,
        scan: 0,
        rows: 0,
    },
    Numbers {
        number: 29,
        ni: 145,
        nj: 37,
        la1: 0,
        lo1: 0,
        la2: 90000,
        lo2: 360000,
        di: 2500,
        dj: 2500,
        scan: 64,
        rows: 0,
    },
    Numbers {
        number: 30,
        ni: 145,
        nj: 37,
        la1: -90000,
        lo1: 0,
        la2: 0,
        lo2: 360000,
        di: 2500,
        dj: 2500,
        scan: 64,
        rows: 0,
    },
    Numbers {
        number: 33,
        ni: 181,
        nj: 46,
        la1: 0,
        lo1: 0,
        la2: 90000,
        lo2: 360000,
        di: 2000,
        dj: 2000,
        scan: 64,
        rows: 0,
    },
    Numbers {
        number: 34,
        ni: 181,
        nj: 46,
        la1: -90000,
        lo1: 0,
        la2: 0,
        lo2: 360000,
        di: 2000,
        dj: 2000,
        scan: 64,
        rows: 0,
    },
    Numbers {
        number: 45,
        ni: 288,
        nj: 145,
        la1: 90000,
        lo1: 0,
        la2: -90000,
        lo2: 358750,
        di: 1250,
        dj: 1250,
        scan: 0,
        rows: 0,
    },
    Numbers {
        number: 37,
        ni: 65535,
        nj: 73,
        la1: 0,
        lo1: 330000,
        la2: 90000,
        lo2: 60000,
        di: 65535,
        dj: 1250,
        scan: 64,
        rows: 1,
    },
    Numbers {
        number: 38,
        ni: 65535,
        nj: 73,
        la1: 0,
        lo1: 60000,
        la2: 90000,
        lo2: 150000,
        di: 65535,
        dj: 1250,
        scan: 64,
        rows: 1,
    },
    Numbers {
        number: 39,
        ni: 65535,
        nj: 73,
        la1: 0,
        lo1: 150000,
        la2: 90000,
        lo2: 240000,
        di: 65535,
        dj: 1250,
        scan: 64,
        rows: 1,
    },
    Numbers {
        number: 40,
        ni: 65535,
        nj: 73,
        la1: 0,
        lo1: 240000,
        la2: 90000,
        lo2: 330000,
        di: 65535,
        dj: 1250,
        scan: 64,
        rows: 1,
    },
    Numbers {
        number: 41,
        ni: 65535,
        nj: 73,
        la1: -90000,
        lo1: 330000,
        la2: 0,
        lo2: 60000,
        di: 65535,
        dj: 1250,
        scan: 64,
        rows: 2,
    },
    Numbers {
        number: 42,
        ni: 65535,
        nj: 73,
        la1: -90000,
        lo1: 60000,
        la2: 0,
        lo2: 150000,
        di: 65535,
        dj: 1250,
        scan: 64,
        rows: 2,
    },
    Numbers {
        number: 43,
        ni: 65535,
        nj: 73,
        la1: -90000,
        lo1: 150000,
        la2: 0,
        lo2: 240000,
        di: 65535,
        dj: 1250,
        scan: 64,
        rows: 2,
    },
    Numbers {
        number: 44,
        ni: 65535,
        nj: 73,
        la1: -90000,
        lo1: 240000,
        la2: 0,
        lo2: 330000,
        di: 65535,
        dj: 1250,
        scan: 64,
        rows: 2,
    },
];

// How many of them are document 01's.
const RECTANGLES: usize = 7;

// The resolution flags of every row.
const FLAGS: u8 = 128;

// The grid that a row's numbers stand for.
fn grid_of(n: Numbers) -> Grid
    ensures { result ≡ (stands_for n).grid }
{
    let edges = Edges {
        la2: plain(n.la2),
        lo2: plain(n.lo2),
        di: n.di,
        dj: n.dj,
    };
    Grid {
        ni: n.ni,
        nj: n.nj,
        la1: plain(n.la1),
        lo1: plain(n.lo1),
        flags: FLAGS,
        scan: n.scan,
        geometry: geometry_by(n.rows, edges),
    }
}

// The grid of a number among some rows, whichever they are, so that no proof walks the whole table.
fn found(rows: &[Numbers], n: u8) -> Option<Grid>
    ensures { result ≡ option_map (λ r. (stands_for r).grid) (find (λ r. r.number == n) rows.now) }
{
    rows.iter()
        .find(|row| row.number == n)
        .map(|row| grid_of(*row))
}

// The grid of a number in the catalogue.
pub fn catalogued(n: u8) -> Option<Grid>
    ensures { result ≡ lookup catalogue n }
{
    found(&CATALOGUE, n)
}

// Two grids that differ in no field, signed fields by their values.
fn same(g: Grid, o: Grid) -> bool
    ensures { result ≡ same_grid g o }
{
    g == o
}

// Whether a grid is by value one of some rows.
fn like_any(rows: &[Numbers], g: Grid) -> bool
    ensures { result ≡ list_any (λ r. same_grid g (stands_for r).grid) rows.now }
{
    rows.iter().any(|row| same(g, grid_of(*row)))
}

// Whether a grid is "by value one of the eight" octants.
pub fn is_octant(g: Grid) -> bool
    ensures { result ≡ like_one octants g }
{
    like_any(&CATALOGUE[RECTANGLES..], g)
}
