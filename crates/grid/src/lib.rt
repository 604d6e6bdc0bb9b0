// The grid of a message, whoever gives it: a GDS or the catalogue. Its points, and refusals 7 and 9. All total.
#![tactic(auto)]

ghost use Rattle.std.specs.Prelude.{◌≡◌, [], ◌∷◌, ◌*◌, ltb, eqb};
ghost use Rattle.rules.specs.declared.Geometry.TheVariants.{LatLon, Thinned, Mercator, Lambert, Gaussian, Polar};
ghost use Rattle.rules.specs.Table.{any_of};
ghost use Rattle.rules.specs.Bounds.{side_most, points_most, latitude_most, longitude_most};
ghost use Rattle.rules.specs.Numbers.{not_within, beyond};
ghost use Rattle.rules.specs.Columns.{all_ones};
ghost use Rattle.rules.specs.Grid.{points_of, the_grid_from, the_grid_missing, grid_or_zeros, the_no_grid};
ghost use Rattle.rules.specs.Grid.{the_scan_bad, faults_by};
ghost use Rattle.rules.specs.Grid.{grid_faults};

use catalogue::{catalogued, is_octant};
use chart::{points_on, shape_of};
use octets::{octet, plain};
use rules::bounds::{DISTANCE_MOST, LATITUDE_MOST, LONGITUDE_MOST, POINTS_MOST, SIDE_MOST};
use rules::{Belts, Cone, Cylinder, Edges, Geometry, Grid, Octant, Plane, Signed};

// The grid given, else the one that octet 7 of the PDS at place p picks from the catalogue.
#[tactic(auto, unfolding(rules::specs::Grid::the_grid_from))]
pub fn grid_from(given: Option<Grid>, s: &[u8], p: usize) -> Option<Grid>
    ensures { result ≡ the_grid_from given s.now p }
{
    given.or_else(|| catalogued(octet(s, p, 7)))
}

// Refusal 7: no GDS, and no grid of that number in the catalogue.
pub fn grid_missing(f: Option<Grid>) -> bool
    ensures { result ≡ the_grid_missing f }
{
    f.is_none()
}

// A grid of zeros.
#[tactic(auto, unfolding(rules::specs::Grid::the_no_grid))]
fn no_grid() -> Grid
    ensures { result ≡ the_no_grid }
{
    let none = plain(0);
    let edges = Edges {
        la2: none,
        lo2: none,
        di: 0,
        dj: 0,
    };
    Grid {
        ni: 0,
        nj: 0,
        la1: none,
        lo1: none,
        flags: 0,
        scan: 0,
        geometry: Geometry::LatLon(edges),
    }
}

// The grid; zeros where there is none.
pub fn the_grid(f: Option<Grid>) -> Grid
    ensures { result ≡ grid_or_zeros f }
{
    f.unwrap_or(no_grid())
}

// n, of a grid.
pub fn points(g: Grid) -> u32
    ensures { result ≡ points_of g }
{
    points_on(shape_of(g))
}

// "Latitude magnitude is at most 90,000".
fn latitude_bad(z: Signed) -> bool
    ensures { result ≡ beyond latitude_most z.value }
{
    (LATITUDE_MOST < z.value) | (z.value < -LATITUDE_MOST)
}

// "longitude at most 360,000".
fn longitude_bad(z: Signed) -> bool
    ensures { result ≡ beyond longitude_most z.value }
{
    (LONGITUDE_MOST < z.value) | (z.value < -LONGITUDE_MOST)
}

// "If Nj > 1, rows running north need La2 above La1, else La2 below La1".
fn scan_bad(nj: u16, scan: u8, la1: Signed, la2: Signed) -> bool
    ensures { result ≡ the_scan_bad nj scan la1 la2 }
{
    let in_order = if 64 <= scan % 128 {
        la1.value < la2.value
    } else {
        la2.value < la1.value
    };
    (1 < nj) & !in_order
}

// Ni or Nj, "least 1, most 65,534".
fn side_bad(n: u16) -> bool
    ensures { result ≡ not_within 1 side_most n }
{
    (n < 1) | (SIDE_MOST < n)
}

// "points n = Ni × Nj", of a rectangle.
fn points_bad(ni: u16, nj: u16) -> bool
    ensures { result ≡ not_within 1 points_most (ni * nj) }
{
    let n = ni as u32 * nj as u32;
    (n < 1) | (POINTS_MOST < n)
}

// A distance that three octets do not hold.
fn distance_bad(d: u32) -> bool
    ensures { result ≡ ltb (all_ones 3) d }
{
    DISTANCE_MOST < d
}

// "a missing Gaussian N": all ones.
fn circles_bad(n: u16) -> bool
    ensures { result ≡ eqb n (all_ones 2) }
{
    n == 65535
}

// Of a grid whose last latitude the scan test asks: n, the scan test, Ni, Nj and both corners.
#[tactic(auto, unfolding(rules::specs::Table::any_of, rules::specs::Table::or_all))]
fn corners_bad(g: Grid, la2: Signed, lo2: Signed) -> bool
    ensures { result ≡
        any_of
        (not_within 1 points_most (g.ni * g.nj)
        ∷ the_scan_bad g.nj g.scan g.la1 la2
        ∷ not_within 1 side_most g.ni
        ∷ not_within 1 side_most g.nj
        ∷ beyond latitude_most g.la1.value
        ∷ beyond longitude_most g.lo1.value
        ∷ beyond latitude_most la2.value
        ∷ beyond longitude_most lo2.value
        ∷ []) }
{
    points_bad(g.ni, g.nj)
        | scan_bad(g.nj, g.scan, g.la1, la2)
        | side_bad(g.ni)
        | side_bad(g.nj)
        | latitude_bad(g.la1)
        | longitude_bad(g.lo1)
        | latitude_bad(la2)
        | longitude_bad(lo2)
}

// Of a grid on a plane of projection, which the scan test does not ask: n, Ni, Nj, the first corner and the plane.
#[tactic(auto, unfolding(rules::specs::Table::any_of, rules::specs::Table::or_all))]
fn plane_bad(g: Grid, q: Plane) -> bool
    ensures { result ≡
        any_of
        (not_within 1 points_most (g.ni * g.nj)
        ∷ not_within 1 side_most g.ni
        ∷ not_within 1 side_most g.nj
        ∷ beyond latitude_most g.la1.value
        ∷ beyond longitude_most g.lo1.value
        ∷ beyond longitude_most q.lov.value
        ∷ ltb (all_ones 3) q.dx
        ∷ ltb (all_ones 3) q.dy
        ∷ []) }
{
    points_bad(g.ni, g.nj)
        | side_bad(g.ni)
        | side_bad(g.nj)
        | latitude_bad(g.la1)
        | longitude_bad(g.lo1)
        | longitude_bad(q.lov)
        | distance_bad(q.dx)
        | distance_bad(q.dy)
}

// Refusal 9 of a latitude/longitude grid.
fn latlon_bad(g: Grid, x: Edges) -> bool
    ensures { result ≡ any_of (faults_by g (LatLon x)) }
{
    corners_bad(g, x.la2, x.lo2)
}

// Of a thinned octant.
fn thinned_bad(g: Grid, o: Octant) -> bool
    ensures { result ≡ any_of (faults_by g (Thinned o)) }
{
    !is_octant(g)
        | latitude_bad(g.la1)
        | longitude_bad(g.lo1)
        | latitude_bad(o.edges.la2)
        | longitude_bad(o.edges.lo2)
}

// Of a Mercator grid.
fn mercator_bad(g: Grid, x: Cylinder) -> bool
    ensures { result ≡ any_of (faults_by g (Mercator x)) }
{
    corners_bad(g, x.la2, x.lo2) | latitude_bad(x.latin) | distance_bad(x.di) | distance_bad(x.dj)
}

// Of a Lambert grid.
fn lambert_bad(g: Grid, x: Cone) -> bool
    ensures { result ≡ any_of (faults_by g (Lambert x)) }
{
    plane_bad(g, x.plane)
        | latitude_bad(x.latin1)
        | latitude_bad(x.latin2)
        | latitude_bad(x.pole_la)
        | longitude_bad(x.pole_lo)
}

// Of a Gaussian grid.
fn gaussian_bad(g: Grid, x: Belts) -> bool
    ensures { result ≡ any_of (faults_by g (Gaussian x)) }
{
    corners_bad(g, x.la2, x.lo2) | circles_bad(x.circles)
}

// Of a polar stereographic grid.
fn polar_bad(g: Grid, x: Plane) -> bool
    ensures { result ≡ any_of (faults_by g (Polar x)) }
{
    plane_bad(g, x)
}

// Refusal 9 of a grid, whoever gives it.
#[tactic(auto, unfolding(rules::specs::Grid::grid_faults))]
pub fn grid_bad(g: Grid) -> bool
    ensures { result ≡ any_of (grid_faults g) }
{
    match g.geometry {
        Geometry::LatLon(x) => latlon_bad(g, x),
        Geometry::Thinned(o) => thinned_bad(g, o),
        Geometry::Mercator(x) => mercator_bad(g, x),
        Geometry::Lambert(x) => lambert_bad(g, x),
        Geometry::Gaussian(x) => gaussian_bad(g, x),
        Geometry::Polar(x) => polar_bad(g, x),
    }
}
