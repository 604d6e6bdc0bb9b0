// The chart: the row and column of a grid point and back, and how many points and rows there are, over the shape of a
// grid alone, a rectangle or the rows of a thinned octant. All total; a number that is no grid point's and a place
// outside the chart have a case of their own.
#![tactic(auto)]

ghost use Rattle.std.specs.Prelude.{◌≡◌, ◌*◌, ◌<◌, length};
ghost use Rattle.rules.specs.Counts.{counts_of};
ghost use Rattle.rules.specs.Chart.{turned as the_turned, spot_of, point_of, the_spot_among, across as the_across};
ghost use Rattle.rules.specs.Chart.{the_point_among};
ghost use Rattle.rules.specs.Chart.{the_points_on, the_rows_on, the_row_long, the_columns_on, the_spot_on};
ghost use Rattle.rules.specs.Chart.{the_point_on, charted, pointed};
ghost use Rattle.rules.specs.Grid.{the_rectangle_of, shape_of};

use octants::{before_row, count, points, rows, scanned};
use rules::{Geometry, Grid, GridPoint, Rectangle, Shape, Spot, Start, Thinning};

// Count i of n, from the other end where the direction is turned.
#[tactic(auto, unfolding(rules::specs::Chart::turned))]
fn turned(turn: bool, n: u32, i: u32) -> u32
    ensures { result ≡ the_turned turn n i }
{
    if turn {
        n.saturating_sub(1).saturating_sub(i)
    } else {
        i
    }
}

// "Scanning bit 1 set: columns run west. Bit 2 set: rows run north. Bit 3 set: points of one column are consecutive,
// else of one row".
#[tactic(auto, using(crate::proofs::Laws::flags), unfolding(rules::specs::Chart::spot_of))]
fn spot(ni: u32, nj: u32, scan: u8, k: u32) -> Spot
    requires ni_nonzero { 0 < ni }
    requires nj_nonzero { 0 < nj }
    ensures { result ≡ spot_of ni nj scan k }
{
    let by_column = 32 <= scan % 64;
    let (row, column) = if by_column {
        (k % nj, k / nj)
    } else {
        (k / ni, k % ni)
    };
    Spot {
        row: turned(64 <= scan % 128, nj, row),
        column: turned(128 <= scan, ni, column),
    }
}

// The way back, of a place inside the chart.
#[tactic(auto, using(crate::proofs::Laws::flags), unfolding(rules::specs::Chart::point_of))]
fn point(ni: u16, nj: u16, scan: u8, c: Spot) -> u32
    requires row_lt_nj { c.row < nj }
    requires column_lt_ni { c.column < ni }
    ensures { result ≡ point_of ni nj scan c }
{
    let wide = ni as u32;
    let high = nj as u32;
    let j = turned(64 <= scan % 128, high, c.row);
    let i = turned(128 <= scan, wide, c.column);
    if 32 <= scan % 64 {
        i * high + j
    } else {
        j * wide + i
    }
}

// How many points chart row r of a thinned octant has; none outside the chart.
#[tactic(auto, using(laws::proofs::Flags::bit_2), unfolding(rules::specs::Chart::across))]
fn across(start: Start, scan: u8, r: u32) -> u32
    ensures { result ≡ the_across (counts_of start) scan r }
{
    let high = rows(start);
    if r < high {
        count(start, turned(64 <= scan % 128, high, r))
    } else {
        0
    }
}

// The place of a point of a thinned octant.
#[tactic(auto, using(crate::proofs::Laws::flags), unfolding(rules::specs::Chart::the_spot_among))]
fn spot_among(start: Start, scan: u8, k: u32) -> Spot
    ensures { result ≡ the_spot_among (counts_of start) scan k }
{
    let at = scanned(start, k);
    let long = count(start, at.row);
    Spot {
        row: turned(64 <= scan % 128, rows(start), at.row),
        column: turned(128 <= scan, long, at.column),
    }
}

// The way back, of a place inside the chart.
#[tactic(auto, using(crate::proofs::Laws::flags), unfolding(rules::specs::Chart::the_point_among))]
fn point_among(start: Start, scan: u8, c: Spot) -> u32
    requires row_in_bounds { c.row < length (counts_of start) }
    requires column_bound { c.column < the_across (counts_of start) scan c.row }
    ensures { result ≡ the_point_among (counts_of start) scan c }
{
    let long = across(start, scan, c.row);
    let j = turned(64 <= scan % 128, rows(start), c.row);
    let i = turned(128 <= scan, long, c.column);
    before_row(start, j) + i
}

// Ni × Nj.
fn area(q: Rectangle) -> u32
    ensures { result ≡ q.ni * q.nj }
{
    q.ni as u32 * q.nj as u32
}

// The rectangle of Ni columns and Nj rows, which every grid is that is not thinned.
fn rectangle_of(g: Grid) -> Shape
    ensures { result ≡ the_rectangle_of g }
{
    Shape::Even(Rectangle {
        ni: g.ni,
        nj: g.nj,
        scan: g.scan,
    })
}

// What points, places and rows ask of a grid.
#[tactic(auto, unfolding(rules::specs::Grid::shape_of))]
pub fn shape_of(g: Grid) -> Shape
    ensures { result ≡ shape_of g }
{
    match g.geometry {
        Geometry::Thinned(o) => Shape::Uneven(Thinning {
            start: o.start,
            scan: g.scan,
        }),
        Geometry::LatLon(_)
        | Geometry::Mercator(_)
        | Geometry::Lambert(_)
        | Geometry::Gaussian(_)
        | Geometry::Polar(_) => rectangle_of(g),
    }
}

// How many points a shape has.
#[tactic(auto, unfolding(rules::specs::Chart::the_points_on))]
pub fn points_on(g: Shape) -> u32
    ensures { result ≡ the_points_on g }
{
    match g {
        Shape::Even(q) => area(q),
        Shape::Uneven(u) => points(u.start),
    }
}

// How many rows its chart has.
#[tactic(auto, unfolding(rules::specs::Chart::the_rows_on))]
pub fn rows_on(g: Shape) -> u32
    ensures { result ≡ the_rows_on g }
{
    match g {
        Shape::Even(q) => q.nj as u32,
        Shape::Uneven(u) => rows(u.start),
    }
}

// How many points a row of its chart has; a row outside the chart has none.
#[tactic(auto, unfolding(rules::specs::Chart::the_row_long))]
pub fn row_long(g: Shape, row: u32) -> u32
    ensures { result ≡ the_row_long g row }
{
    match g {
        Shape::Even(q) => if row < q.nj as u32 { q.ni as u32 } else { 0 },
        Shape::Uneven(u) => across(u.start, u.scan, row),
    }
}

// How many columns are listed: those of a thinned octant are none.
#[tactic(auto, unfolding(rules::specs::Chart::the_columns_on))]
pub fn columns_on(g: Shape) -> u32
    ensures { result ≡ the_columns_on g }
{
    match g {
        Shape::Even(q) => q.ni as u32,
        Shape::Uneven(_) => 0,
    }
}

// The place of a grid point.
#[tactic(auto, unfolding(rules::specs::Chart::the_spot_on))]
fn spot_on(g: Shape, k: u32) -> Spot
    requires { k < the_points_on g }
    ensures { result ≡ the_spot_on g k }
{
    match g {
        Shape::Even(q) => spot(q.ni as u32, q.nj as u32, q.scan, k),
        Shape::Uneven(u) => spot_among(u.start, u.scan, k),
    }
}

// The grid point of a place inside the chart.
#[tactic(auto, unfolding(rules::specs::Chart::the_point_on))]
fn point_on(g: Shape, c: Spot) -> u32
    requires row_bound { c.row < the_rows_on g }
    requires column_bound { c.column < the_row_long g c.row }
    ensures { result ≡ the_point_on g c }
{
    match g {
        Shape::Even(q) => point(q.ni, q.nj, q.scan, c),
        Shape::Uneven(u) => point_among(u.start, u.scan, c),
    }
}

// Where a grid point lies on the chart.
#[tactic(auto, unfolding(rules::specs::Chart::charted))]
pub fn spot_of(g: Shape, k: GridPoint) -> Option<Spot>
    ensures { result ≡ charted g k }
{
    if k.0 < points_on(g) {
        Some(spot_on(g, k.0))
    } else {
        None
    }
}

// The grid point that lies at a place of the chart.
#[tactic(auto, unfolding(rules::specs::Chart::pointed))]
pub fn point_at(g: Shape, c: Spot) -> Option<GridPoint>
    ensures { result ≡ pointed g c }
{
    if (c.row < rows_on(g)) & (c.column < row_long(g, c.row)) {
        Some(GridPoint(point_on(g, c)))
    } else {
        None
    }
}
