// The Grid Description Section of a grid of any kind, put into lent octets. Every public function is total: a section
// that does not fit, by room or by its numbers, changes nothing and answers false.
#![tactic(auto)]

ghost use Rattle.std.specs.Prelude.{◌≡◌, false, [], ◌∷◌, ◌+◌, ◌-◌, ◌^◌, ◌<◌, ◌≤◌, ltb, leb, length};
ghost use Rattle.bits.specs.Bits.{placed};
ghost use Rattle.rules.specs.declared.Geometry.TheVariants.{LatLon, Thinned, Mercator, Lambert, Gaussian, Polar};
ghost use Rattle.rules.specs.Bounds.{gds_length, long_length, thinned_length, octant_rows};
ghost use Rattle.rules.specs.Numbers.{field, laid, sign, beyond};
ghost use Rattle.rules.specs.Table.{any_of};
ghost use Rattle.rules.specs.Columns.{all_ones};
ghost use Rattle.rules.specs.Layouts.{length_by};
ghost use Rattle.rules.specs.Grid.{kind_of, gds_length_of, fields_by, gds_of};
ghost use Rattle.rules.specs.Writing.{gds_for};
ghost use Rattle.laws.specs.Signs.{SignFree};
ghost use Rattle.gds_put.specs.Section.{top_fields, front_fields, edges_fields, count_fields, cylinder_fields};
ghost use Rattle.gds_put.specs.Section.{plane_fields, cone_fields, unheld_by, the_grid_unheld, the_found_holds};
ghost use Rattle.gds_put.specs.Section.{gds_fits};
ghost use Rattle.gds_put.specs.Section.{the_gds_put};

use octants::count;
use puts::{put_four, put_octet, put_signed_three, put_three, put_two};
use rules::bounds::{DISTANCE_MOST, GDS_LENGTH, LONG_LENGTH, OCTANT_ROWS, THINNED_LENGTH};
use rules::{Belts, Cone, Cylinder, Edges, Geometry, Grid, Octant, Plane, Signed, Start};

// Octets 1 to 6 of the GDS at place g.
fn put_top(out: &mut [u8], g: usize, len: u32, five: u8, six: u8)
    requires g_in_bounds { g + 6 ≤ length out.old }
    requires len_bound { len < 2 ^ 24 }
    ensures { out.new ≡ placed out.old g (laid (top_fields len five six) []) }
{
    put_three(out, g, 1, len);
    put_octet(out, g, 4, 0);
    put_octet(out, g, 5, five);
    put_octet(out, g, 6, six);
}

// Octets 7 to 17.
fn put_front(out: &mut [u8], g: usize, grid: Grid)
    requires g_in_bounds { g + 17 ≤ length out.old }
    requires sign_free { SignFree 3 grid.la1 × SignFree 3 grid.lo1 }
    ensures { out.new ≡
        placed out.old (g + 6)
        (laid (front_fields grid.ni grid.nj grid.la1 grid.lo1 grid.flags) []) }
{
    put_two(out, g, 7, grid.ni);
    put_two(out, g, 9, grid.nj);
    put_signed_three(out, g, 11, grid.la1);
    put_signed_three(out, g, 14, grid.lo1);
    put_octet(out, g, 17, grid.flags);
}

// Octets 18 to 32 of a latitude/longitude grid, and of a Gaussian one with N in the place of Dj.
fn put_edges(out: &mut [u8], g: usize, x: Edges, scan: u8)
    requires g_in_bounds { g + 32 ≤ length out.old }
    requires sign_free { SignFree 3 x.la2 × SignFree 3 x.lo2 }
    ensures { out.new ≡
        placed out.old (g + 17) (laid (edges_fields x.la2 x.lo2 x.di x.dj scan) []) }
{
    put_signed_three(out, g, 18, x.la2);
    put_signed_three(out, g, 21, x.lo2);
    put_two(out, g, 24, x.di);
    put_two(out, g, 26, x.dj);
    put_octet(out, g, 28, scan);
    put_four(out, g, 29, 0);
}

// Octets 33 to 178: the counts of an octant's rows.
fn put_counts(out: &mut [u8], g: usize, start: Start)
    requires { g + thinned_length ≤ length out.old }
    ensures { out.new ≡ placed out.old (g + 32) (laid (count_fields start octant_rows) []) }
{
    for i in 0..OCTANT_ROWS {
        let k = 33 + 2 * i;
        let c = count(start, i);
        put_two(out, g, k as u8, c as u16);
    }
}

// Octets 18 to 34 of a Mercator grid.
fn put_cylinder(out: &mut [u8], g: usize, x: Cylinder, scan: u8)
    requires g_in_bounds { g + 34 ≤ length out.old }
    requires sign_free { SignFree 3 x.la2 × SignFree 3 x.lo2 × SignFree 3 x.latin }
    requires di_bound { (x.di < 2 ^ 24) × (x.dj < 2 ^ 24) }
    ensures { out.new ≡
        placed out.old (g + 17)
        (laid (cylinder_fields x.la2 x.lo2 x.latin scan x.di x.dj) []) }
{
    put_signed_three(out, g, 18, x.la2);
    put_signed_three(out, g, 21, x.lo2);
    put_signed_three(out, g, 24, x.latin);
    put_octet(out, g, 27, 0);
    put_octet(out, g, 28, scan);
    put_three(out, g, 29, x.di);
    put_three(out, g, 32, x.dj);
}

// Octets 35 to 42 of a Mercator grid, reserved.
fn put_eight(out: &mut [u8], g: usize)
    requires { g + long_length ≤ length out.old }
    ensures { out.new ≡ placed out.old (g + 34) (laid (field 8 0 ∷ []) []) }
{
    put_four(out, g, 35, 0);
    put_four(out, g, 39, 0);
}

// Octets 18 to 28 of a Lambert or polar stereographic grid.
fn put_plane(out: &mut [u8], g: usize, q: Plane, scan: u8)
    requires g_in_bounds { g + 28 ≤ length out.old }
    requires sign_free { SignFree 3 q.lov × (q.dx < 2 ^ 24) × (q.dy < 2 ^ 24) }
    ensures { out.new ≡
        placed out.old (g + 17) (laid (plane_fields q.lov q.dx q.dy q.centre scan) []) }
{
    put_signed_three(out, g, 18, q.lov);
    put_three(out, g, 21, q.dx);
    put_three(out, g, 24, q.dy);
    put_octet(out, g, 27, q.centre);
    put_octet(out, g, 28, scan);
}

// Octets 29 to 42 of a Lambert grid.
fn put_cone(out: &mut [u8], g: usize, x: Cone)
    requires long_length_in_bounds { g + long_length ≤ length out.old }
    requires sign_free { SignFree 3 x.latin1 × SignFree 3 x.latin2 × SignFree 3 x.pole_la × SignFree 3 x.pole_lo }
    ensures { out.new ≡
        placed out.old (g + 28) (laid (cone_fields x.latin1 x.latin2 x.pole_la x.pole_lo) []) }
{
    put_signed_three(out, g, 29, x.latin1);
    put_signed_three(out, g, 32, x.latin2);
    put_signed_three(out, g, 35, x.pole_la);
    put_signed_three(out, g, 38, x.pole_lo);
    put_two(out, g, 41, 0);
}

// Octets 29 to 32 of a polar stereographic grid, reserved.
fn put_reserved(out: &mut [u8], g: usize)
    requires { g + gds_length ≤ length out.old }
    ensures { out.new ≡ placed out.old (g + 28) (laid (field 4 0 ∷ []) []) }
{
    put_four(out, g, 29, 0);
}

// The GDS of a latitude/longitude grid.
fn put_latlon(out: &mut [u8], g: usize, grid: Grid, x: Edges)
    requires gds_length_in_bounds { g + gds_length ≤ length out.old }
    requires x_value { any_of (unheld_by grid (LatLon x)) ≡ false }
    ensures { out.new ≡ placed out.old g (laid (fields_by grid (LatLon x)) []) }
{
    put_top(out, g, GDS_LENGTH, 255, 0);
    put_front(out, g, grid);
    put_edges(out, g, x, grid.scan);
}

// The GDS of a thinned octant.
fn put_thinned(out: &mut [u8], g: usize, grid: Grid, o: Octant)
    requires thinned_length_in_bounds { g + thinned_length ≤ length out.old }
    requires o_value { any_of (unheld_by grid (Thinned o)) ≡ false }
    ensures { out.new ≡ placed out.old g (laid (fields_by grid (Thinned o)) []) }
{
    put_top(out, g, THINNED_LENGTH, 33, 0);
    put_front(out, g, grid);
    put_edges(out, g, o.edges, grid.scan);
    put_counts(out, g, o.start);
}

// The GDS of a Mercator grid.
fn put_mercator(out: &mut [u8], g: usize, grid: Grid, x: Cylinder)
    requires long_length_in_bounds { g + long_length ≤ length out.old }
    requires x_value { any_of (unheld_by grid (Mercator x)) ≡ false }
    ensures { out.new ≡ placed out.old g (laid (fields_by grid (Mercator x)) []) }
{
    put_top(out, g, LONG_LENGTH, 255, 1);
    put_front(out, g, grid);
    put_cylinder(out, g, x, grid.scan);
    put_eight(out, g);
}

// The GDS of a Lambert grid.
fn put_lambert(out: &mut [u8], g: usize, grid: Grid, x: Cone)
    requires long_length_in_bounds { g + long_length ≤ length out.old }
    requires x_value { any_of (unheld_by grid (Lambert x)) ≡ false }
    ensures { out.new ≡ placed out.old g (laid (fields_by grid (Lambert x)) []) }
{
    put_top(out, g, LONG_LENGTH, 255, 3);
    put_front(out, g, grid);
    put_plane(out, g, x.plane, grid.scan);
    put_cone(out, g, x);
}

// The GDS of a Gaussian grid.
fn put_gaussian(out: &mut [u8], g: usize, grid: Grid, x: Belts)
    requires gds_length_in_bounds { g + gds_length ≤ length out.old }
    requires x_value { any_of (unheld_by grid (Gaussian x)) ≡ false }
    ensures { out.new ≡ placed out.old g (laid (fields_by grid (Gaussian x)) []) }
{
    put_top(out, g, GDS_LENGTH, 255, 4);
    put_front(out, g, grid);
    let edges = Edges {
        la2: x.la2,
        lo2: x.lo2,
        di: x.di,
        dj: x.circles,
    };
    put_edges(out, g, edges, grid.scan);
}

// The GDS of a polar stereographic grid.
fn put_polar(out: &mut [u8], g: usize, grid: Grid, x: Plane)
    requires gds_length_in_bounds { g + gds_length ≤ length out.old }
    requires x_value { any_of (unheld_by grid (Polar x)) ≡ false }
    ensures { out.new ≡ placed out.old g (laid (fields_by grid (Polar x)) []) }
{
    put_top(out, g, GDS_LENGTH, 255, 5);
    put_front(out, g, grid);
    put_plane(out, g, x, grid.scan);
    put_reserved(out, g);
}

// The GDS of a grid.
#[tactic(auto, unfolding(rules::specs::Grid::gds_of, rules::specs::Grid::grid_fields))]
fn put_kind(out: &mut [u8], g: usize, grid: Grid)
    requires grid_in_bounds { g + gds_length_of grid ≤ length out.old }
    requires grid_value { any_of (the_grid_unheld grid) ≡ false }
    ensures { out.new ≡ placed out.old g (gds_of grid) }
{
    match grid.geometry {
        Geometry::LatLon(x) => put_latlon(out, g, grid, x),
        Geometry::Thinned(o) => put_thinned(out, g, grid, o),
        Geometry::Mercator(x) => put_mercator(out, g, grid, x),
        Geometry::Lambert(x) => put_lambert(out, g, grid, x),
        Geometry::Gaussian(x) => put_gaussian(out, g, grid, x),
        Geometry::Polar(x) => put_polar(out, g, grid, x),
    }
}

// Whether the magnitude of a signed field would take the sign bit of its three octets.
fn sign_taken(z: Signed) -> bool
    ensures { result ≡ beyond (sign 3 - 1) z.value }
{
    (8388607 < z.value) | (z.value < -8388607)
}

// Whether three octets do not hold a distance.
fn too_far(d: u32) -> bool
    ensures { result ≡ ltb (all_ones 3) d }
{
    DISTANCE_MOST < d
}

// Of a grid with two corners, whether the octets of one do not hold it.
#[tactic(auto, unfolding(rules::specs::Table::any_of, rules::specs::Table::or_all))]
fn corners_unheld(g: Grid, la2: Signed, lo2: Signed) -> bool
    ensures { result ≡
        any_of
        (beyond (sign 3 - 1) g.la1.value
        ∷ beyond (sign 3 - 1) g.lo1.value
        ∷ beyond (sign 3 - 1) la2.value
        ∷ beyond (sign 3 - 1) lo2.value
        ∷ []) }
{
    sign_taken(g.la1) | sign_taken(g.lo1) | sign_taken(la2) | sign_taken(lo2)
}

// Of a grid on a plane of projection, whether the octets of its corner or of the plane do not hold them.
#[tactic(auto, unfolding(rules::specs::Table::any_of, rules::specs::Table::or_all))]
fn plane_unheld(g: Grid, q: Plane) -> bool
    ensures { result ≡
        any_of
        (beyond (sign 3 - 1) g.la1.value
        ∷ beyond (sign 3 - 1) g.lo1.value
        ∷ beyond (sign 3 - 1) q.lov.value
        ∷ ltb (all_ones 3) q.dx
        ∷ ltb (all_ones 3) q.dy
        ∷ []) }
{
    sign_taken(g.la1) | sign_taken(g.lo1) | sign_taken(q.lov) | too_far(q.dx) | too_far(q.dy)
}

// Of a Mercator grid.
fn mercator_unheld(g: Grid, x: Cylinder) -> bool
    ensures { result ≡ any_of (unheld_by g (Mercator x)) }
{
    corners_unheld(g, x.la2, x.lo2) | sign_taken(x.latin) | too_far(x.di) | too_far(x.dj)
}

// Of a Lambert grid.
fn lambert_unheld(g: Grid, x: Cone) -> bool
    ensures { result ≡ any_of (unheld_by g (Lambert x)) }
{
    plane_unheld(g, x.plane)
        | sign_taken(x.latin1)
        | sign_taken(x.latin2)
        | sign_taken(x.pole_la)
        | sign_taken(x.pole_lo)
}

// Whether the octets of a grid do not hold one of its numbers.
fn grid_unheld(g: Grid) -> bool
    ensures { result ≡ any_of (the_grid_unheld g) }
{
    match g.geometry {
        Geometry::LatLon(x) => corners_unheld(g, x.la2, x.lo2),
        Geometry::Thinned(o) => corners_unheld(g, o.edges.la2, o.edges.lo2),
        Geometry::Mercator(x) => mercator_unheld(g, x),
        Geometry::Lambert(x) => lambert_unheld(g, x),
        Geometry::Gaussian(x) => corners_unheld(g, x.la2, x.lo2),
        Geometry::Polar(x) => plane_unheld(g, x),
    }
}

// Whether the octets of the grid that is given hold it.
#[tactic(auto, unfolding(crate::specs::Section::the_found_holds))]
fn found_holds(grid: Option<Grid>) -> bool
    ensures { result ≡ the_found_holds grid }
{
    grid.is_none_or(|g| !grid_unheld(g))
}

// How many octets the GDS of a kind has.
fn kind_room(a: Geometry) -> usize
    ensures { result ≡ length_by (kind_of a) }
{
    match a {
        Geometry::LatLon(_) => GDS_LENGTH as usize,
        Geometry::Thinned(_) => THINNED_LENGTH as usize,
        Geometry::Mercator(_) => LONG_LENGTH as usize,
        Geometry::Lambert(_) => LONG_LENGTH as usize,
        Geometry::Gaussian(_) => GDS_LENGTH as usize,
        Geometry::Polar(_) => GDS_LENGTH as usize,
    }
}

// How many octets the GDS of a grid takes; none where no grid is given.
pub fn gds_room(grid: Option<Grid>) -> usize
    ensures { result ≡ length (gds_for grid) }
{
    match grid {
        None => 0,
        Some(g) => kind_room(g.geometry),
    }
}

// Whether so many octets have room for len from place at on.
fn room(octets: usize, at: usize, len: usize) -> bool
    ensures { result ≡ leb (at + len) octets }
{
    at <= octets && len <= octets - at
}

// Puts the GDS of the grid given at place at, and nothing where none is given.
#[tactic(auto, unfolding(crate::specs::Section::gds_fits, crate::specs::Section::the_gds_put))]
pub fn put_gds(out: &mut [u8], at: usize, grid: Option<Grid>) -> bool
    ensures value { result ≡ gds_fits out.old at grid }
    ensures out_after { out.new ≡ the_gds_put out.old at grid }
{
    if !(found_holds(grid) & room(out.len(), at, gds_room(grid))) {
        return false;
    }
    match grid {
        None => true,
        Some(g) => {
            put_kind(out, at, g);
            true
        }
    }
}
