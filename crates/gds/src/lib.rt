// The Grid Description Section of a message: the grid that it says, of any kind, and refusal 8. All total.
#![tactic(auto)]

ghost use Rattle.std.specs.Prelude.{◌≡◌, cond, length, map};
ghost use Rattle.std.specs.Option.{is_some};
ghost use Rattle.rules.specs.Bounds.{octant_rows};
ghost use Rattle.rules.specs.Counts.{counts_of};
ghost use Rattle.rules.specs.Numbers.{octet as the_octet, number, signed_at};
ghost use Rattle.rules.specs.Columns.{cells_at};
ghost use Rattle.rules.specs.Table.{any_of};
ghost use Rattle.rules.specs.Layouts.{latlon, thinned, mercator, lambert, gaussian, polar, kinds, columns};
ghost use Rattle.rules.specs.Layouts.{count_columns};
ghost use Rattle.rules.specs.Grid.{counts_held, same_counts, start_of, grid_of_cells, admits, kind_at as the_kind_at};
ghost use Rattle.rules.specs.Grid.{the_grid_at, the_gds_bad};
ghost use Rattle.gds.specs.Kinds.{kind_or_first};

use octants::count;
use octets::{octet, signed_three, three, two};
use rules::bounds::{GDS_LENGTH, LONG_LENGTH, OCTANT_ROWS, THINNED_LENGTH};
use rules::{Belts, Cone, Cylinder, Edges, Geometry, Grid, Octant, Part, Plane, Start};

// Octets 18 to 27 of the GDS at a place.
fn edges_at(s: &[u8], g: usize) -> Edges
    ensures { result ≡ record {
      la2 = signed_at s.now g 18 20;
      lo2 = signed_at s.now g 21 23;
      di = number s.now g 24 25;
      dj = number s.now g 26 27;
    } }
{
    Edges {
        la2: signed_three(s, g, 18),
        lo2: signed_three(s, g, 21),
        di: two(s, g, 24),
        dj: two(s, g, 26),
    }
}

// Octets 18 to 26 and 29 to 34 of a Mercator grid.
fn cylinder_at(s: &[u8], g: usize) -> Cylinder
    ensures { result ≡ record {
      la2 = signed_at s.now g 18 20;
      lo2 = signed_at s.now g 21 23;
      latin = signed_at s.now g 24 26;
      di = number s.now g 29 31;
      dj = number s.now g 32 34;
    } }
{
    Cylinder {
        la2: signed_three(s, g, 18),
        lo2: signed_three(s, g, 21),
        latin: signed_three(s, g, 24),
        di: three(s, g, 29),
        dj: three(s, g, 32),
    }
}

// Octets 18 to 27 of a Gaussian grid.
fn belts_at(s: &[u8], g: usize) -> Belts
    ensures { result ≡ record {
      la2 = signed_at s.now g 18 20;
      lo2 = signed_at s.now g 21 23;
      di = number s.now g 24 25;
      circles = number s.now g 26 27;
    } }
{
    Belts {
        la2: signed_three(s, g, 18),
        lo2: signed_three(s, g, 21),
        di: two(s, g, 24),
        circles: two(s, g, 26),
    }
}

// Octets 18 to 27 of a Lambert or polar stereographic grid.
fn plane_at(s: &[u8], g: usize) -> Plane
    ensures { result ≡ record {
      lov = signed_at s.now g 18 20;
      dx = number s.now g 21 23;
      dy = number s.now g 24 26;
      centre = the_octet s.now g 27;
    } }
{
    Plane {
        lov: signed_three(s, g, 18),
        dx: three(s, g, 21),
        dy: three(s, g, 24),
        centre: octet(s, g, 27),
    }
}

// These, and octets 29 to 40 of a Lambert grid.
fn cone_at(s: &[u8], g: usize) -> Cone
    ensures { result ≡ record {
      plane = record {
        lov = signed_at s.now g 18 20;
        dx = number s.now g 21 23;
        dy = number s.now g 24 26;
        centre = the_octet s.now g 27;
      };
      latin1 = signed_at s.now g 29 31;
      latin2 = signed_at s.now g 32 34;
      pole_la = signed_at s.now g 35 37;
      pole_lo = signed_at s.now g 38 40;
    } }
{
    Cone {
        plane: plane_at(s, g),
        latin1: signed_three(s, g, 29),
        latin2: signed_three(s, g, 32),
        pole_la: signed_three(s, g, 35),
        pole_lo: signed_three(s, g, 38),
    }
}

// Octets 7 to 17 and 28, which every kind has, and a geometry.
fn grid_with(s: &[u8], g: usize, geometry: Geometry) -> Grid
    ensures { result ≡ record {
      ni = number s.now g 7 8;
      nj = number s.now g 9 10;
      la1 = signed_at s.now g 11 13;
      lo1 = signed_at s.now g 14 16;
      flags = the_octet s.now g 17;
      scan = the_octet s.now g 28;
      geometry = geometry;
    } }
{
    Grid {
        ni: two(s, g, 7),
        nj: two(s, g, 9),
        la1: signed_three(s, g, 11),
        lo1: signed_three(s, g, 14),
        flags: octet(s, g, 17),
        scan: octet(s, g, 28),
        geometry,
    }
}

// Whether the counts in octets 33 to 178 are those of an octant.
fn counts_are(s: &[u8], g: usize, start: Start) -> bool
    requires { length (counts_of start) ≡ octant_rows }
    ensures { result ≡
        same_counts (counts_held 33 octant_rows (cells_at (count_columns 33 octant_rows) s.now g))
        (counts_of start) }
{
    for i in 0..OCTANT_ROWS {
        let k = 33 + 2 * i;
        if two(s, g, k as u8) as u32 != count(start, i) {
            return false;
        }
    }
    true
}

// At which end an octant of these counts begins.
#[tactic(auto, using(crate::proofs::Laws::octants_long), unfolding(rules::specs::Grid::start_of))]
fn start_at(s: &[u8], g: usize) -> Start
    ensures { result ≡
        start_of (counts_held 33 octant_rows (cells_at (count_columns 33 octant_rows) s.now g)) }
{
    if counts_are(s, g, Start::Equator) {
        Start::Equator
    } else if counts_are(s, g, Start::Pole) {
        Start::Pole
    } else {
        Start::Neither
    }
}

// The grid of a section of a latitude/longitude grid.
#[tactic(auto, unfolding(rules::specs::Grid::grid_of_cells, rules::specs::Columns::cells_at))]
fn latlon_at(s: &[u8], g: usize) -> Grid
    ensures { result ≡ grid_of_cells latlon (cells_at (columns latlon) s.now g) }
{
    grid_with(s, g, Geometry::LatLon(edges_at(s, g)))
}

// Of a thinned octant.
#[tactic(auto, unfolding(rules::specs::Grid::grid_of_cells, rules::specs::Columns::cells_at))]
fn thinned_at(s: &[u8], g: usize) -> Grid
    ensures { result ≡ grid_of_cells thinned (cells_at (columns thinned) s.now g) }
{
    let octant = Octant {
        edges: edges_at(s, g),
        start: start_at(s, g),
    };
    grid_with(s, g, Geometry::Thinned(octant))
}

// Of a Mercator grid.
#[tactic(auto, unfolding(rules::specs::Grid::grid_of_cells, rules::specs::Columns::cells_at))]
fn mercator_at(s: &[u8], g: usize) -> Grid
    ensures { result ≡ grid_of_cells mercator (cells_at (columns mercator) s.now g) }
{
    grid_with(s, g, Geometry::Mercator(cylinder_at(s, g)))
}

// Of a Lambert grid.
#[tactic(auto, unfolding(rules::specs::Grid::grid_of_cells, rules::specs::Columns::cells_at))]
fn lambert_at(s: &[u8], g: usize) -> Grid
    ensures { result ≡ grid_of_cells lambert (cells_at (columns lambert) s.now g) }
{
    grid_with(s, g, Geometry::Lambert(cone_at(s, g)))
}

// Of a Gaussian grid.
#[tactic(auto, unfolding(rules::specs::Grid::grid_of_cells, rules::specs::Columns::cells_at))]
fn gaussian_at(s: &[u8], g: usize) -> Grid
    ensures { result ≡ grid_of_cells gaussian (cells_at (columns gaussian) s.now g) }
{
    grid_with(s, g, Geometry::Gaussian(belts_at(s, g)))
}

// Of a polar stereographic grid.
#[tactic(auto, unfolding(rules::specs::Grid::grid_of_cells, rules::specs::Columns::cells_at))]
fn polar_at(s: &[u8], g: usize) -> Grid
    ensures { result ≡ grid_of_cells polar (cells_at (columns polar) s.now g) }
{
    grid_with(s, g, Geometry::Polar(plane_at(s, g)))
}

// The kinds of sections.
#[derive(Clone, Copy)]
enum Kind {
    LatLon,
    Thinned,
    Mercator,
    Lambert,
    Gaussian,
    Polar,
}

// The kind whose length and octets 4 to 6 a section has, if there is one.
#[tactic(auto, unfolding(rules::specs::Grid::kind_at, rules::specs::Table::any_of, rules::specs::Table::or_all,),)]
fn kind_at(s: &[u8], p: Part) -> Option<Kind>
    ensures admitted { is_some result ≡ any_of (map (admits s.now p) kinds) }
    ensures first { the_kind_at s.now p ≡ kind_or_first result }
{
    let g = p.start as usize;
    match (p.len, octet(s, g, 4), octet(s, g, 5), octet(s, g, 6)) {
        (GDS_LENGTH, 0, 255, 0) => Some(Kind::LatLon),
        (THINNED_LENGTH, 0, 33, 0) => Some(Kind::Thinned),
        (LONG_LENGTH, 0, 255, 1) => Some(Kind::Mercator),
        (LONG_LENGTH, 0, 255, 3) => Some(Kind::Lambert),
        (GDS_LENGTH, 0, 255, 4) => Some(Kind::Gaussian),
        (GDS_LENGTH, 0, 255, 5) => Some(Kind::Polar),
        _ => None,
    }
}

// The grid of a section, whatever its octets are: of no kind, it is read as a latitude/longitude grid.
#[tactic(auto, unfolding(rules::specs::Grid::the_grid_at))]
fn grid_at(s: &[u8], p: Part) -> Grid
    ensures { result ≡ the_grid_at s.now p }
{
    let g = p.start as usize;
    match kind_at(s, p) {
        Some(Kind::LatLon) => latlon_at(s, g),
        Some(Kind::Thinned) => thinned_at(s, g),
        Some(Kind::Mercator) => mercator_at(s, g),
        Some(Kind::Lambert) => lambert_at(s, g),
        Some(Kind::Gaussian) => gaussian_at(s, g),
        Some(Kind::Polar) => polar_at(s, g),
        None => latlon_at(s, g),
    }
}

// The grid of the section at p, where there is one.
pub fn grid_in(s: &[u8], there: bool, p: Part) -> Option<Grid>
    ensures { result ≡ cond there (Some (the_grid_at s.now p)) None }
{
    if there { Some(grid_at(s, p)) } else { None }
}

// Refusal 8 of the section at p: its length, or one of octets 4 to 6.
#[tactic(auto, unfolding(rules::specs::Grid::the_gds_bad))]
pub fn gds_bad(s: &[u8], p: Part) -> bool
    ensures { result ≡ the_gds_bad s.now p }
{
    kind_at(s, p).is_none()
}
