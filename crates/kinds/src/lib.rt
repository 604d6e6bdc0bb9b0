// A grid's geometry in figures, and back: faces, tables of grids and files of vectors hold figures. All total.
#![tactic(auto, unfolding(rules::specs::Figures::the_figures_of))]

ghost use Rattle.std.specs.Prelude.{◌≡◌};
ghost use Rattle.rules.specs.declared.Geometry.TheVariants.{LatLon, Thinned, Mercator, Lambert, Gaussian, Polar};
ghost use Rattle.rules.specs.declared.Start.TheVariants.{Neither};
ghost use Rattle.rules.specs.Figures.{the_start_number, start_by, the_geometry_by, figures, none, the_figures_of};
ghost use Rattle.rules.specs.Figures.{the_edges_in, the_plane_in};
ghost use Rattle.rules.specs.Figures.{the_cylinder_in, the_cone_in, the_belts_in, the_geometry_of};

use octets::plain;
use rules::{Belts, Cone, Cylinder, Edges, Figures, Geometry, Octant, Plane, Start};

// The counts from the equator are 1, those from the pole 2, and 3 are counts that no octant has.
fn start_number(start: Start) -> u8
    ensures { result ≡ the_start_number start }
{
    match start {
        Start::Equator => 1,
        Start::Pole => 2,
        Start::Neither => 3,
    }
}

// And back; another number counts as 3.
fn start_by(rows: u8) -> Start
    ensures { result ≡ start_by rows }
{
    match rows {
        1 => Start::Equator,
        2 => Start::Pole,
        _ => Start::Neither,
    }
}

// The geometry of a latitude/longitude grid whose rows are counted so, 0 where all have Ni, with these edges.
#[tactic(auto, unfolding(rules::specs::Figures::the_geometry_by))]
pub fn geometry_by(rows: u8, edges: Edges) -> Geometry
    ensures { result ≡ the_geometry_by rows edges }
{
    match rows {
        0 => Geometry::LatLon(edges),
        _ => Geometry::Thinned(Octant {
            edges,
            start: start_by(rows),
        }),
    }
}

// The figures of which a kind has none.
fn zeros() -> Figures
    ensures { result ≡ figures 0 0 none none 0 0 0 0 none none none none none 0 0 }
{
    let none = plain(0);
    Figures {
        kind: 0,
        rows: 0,
        la2: none,
        lo2: none,
        di: 0,
        dj: 0,
        dx: 0,
        dy: 0,
        lov: none,
        latin1: none,
        latin2: none,
        pole_la: none,
        pole_lo: none,
        centre: 0,
        circles: 0,
    }
}

// The figures of a latitude/longitude grid.
fn edges_figures(rows: u8, x: Edges) -> Figures
    ensures { result ≡
        figures 0 rows x.la2 x.lo2 x.di x.dj 0 0 none none none none none 0 0 }
{
    Figures {
        kind: 0,
        rows,
        la2: x.la2,
        lo2: x.lo2,
        di: x.di,
        dj: x.dj,
        ..zeros()
    }
}

// Of a Mercator grid.
fn cylinder_figures(x: Cylinder) -> Figures
    ensures { result ≡ the_figures_of (Mercator x) }
{
    Figures {
        kind: 1,
        la2: x.la2,
        lo2: x.lo2,
        dx: x.di,
        dy: x.dj,
        latin1: x.latin,
        ..zeros()
    }
}

// Of a Lambert grid.
fn cone_figures(x: Cone) -> Figures
    ensures { result ≡ the_figures_of (Lambert x) }
{
    Figures {
        kind: 3,
        latin1: x.latin1,
        latin2: x.latin2,
        pole_la: x.pole_la,
        pole_lo: x.pole_lo,
        ..plane_figures(x.plane)
    }
}

// Of a Gaussian grid.
fn belts_figures(x: Belts) -> Figures
    ensures { result ≡ the_figures_of (Gaussian x) }
{
    Figures {
        kind: 4,
        la2: x.la2,
        lo2: x.lo2,
        di: x.di,
        circles: x.circles,
        ..zeros()
    }
}

// Of a polar stereographic grid.
fn plane_figures(x: Plane) -> Figures
    ensures { result ≡ the_figures_of (Polar x) }
{
    Figures {
        kind: 5,
        lov: x.lov,
        dx: x.dx,
        dy: x.dy,
        centre: x.centre,
        ..zeros()
    }
}

// The figures of a geometry; what its kind does not have is zero.
pub fn figures_of(geometry: Geometry) -> Figures
    ensures { result ≡ the_figures_of geometry }
{
    match geometry {
        Geometry::LatLon(x) => edges_figures(0, x),
        Geometry::Thinned(o) => edges_figures(start_number(o.start), o.edges),
        Geometry::Mercator(x) => cylinder_figures(x),
        Geometry::Lambert(x) => cone_figures(x),
        Geometry::Gaussian(x) => belts_figures(x),
        Geometry::Polar(x) => plane_figures(x),
    }
}

// The figures that a latitude/longitude grid has of its own.
fn edges_in(f: Figures) -> Edges
    ensures { result ≡ the_edges_in f }
{
    Edges {
        la2: f.la2,
        lo2: f.lo2,
        di: f.di,
        dj: f.dj,
    }
}

// Those of a Mercator grid.
fn cylinder_in(f: Figures) -> Cylinder
    ensures { result ≡ the_cylinder_in f }
{
    Cylinder {
        la2: f.la2,
        lo2: f.lo2,
        latin: f.latin1,
        di: f.dx,
        dj: f.dy,
    }
}

// Those of a polar stereographic grid.
fn plane_in(f: Figures) -> Plane
    ensures { result ≡ the_plane_in f }
{
    Plane {
        lov: f.lov,
        dx: f.dx,
        dy: f.dy,
        centre: f.centre,
    }
}

// Those of a Lambert grid.
fn cone_in(f: Figures) -> Cone
    ensures { result ≡ the_cone_in f }
{
    Cone {
        plane: plane_in(f),
        latin1: f.latin1,
        latin2: f.latin2,
        pole_la: f.pole_la,
        pole_lo: f.pole_lo,
    }
}

// Those of a Gaussian grid.
fn belts_in(f: Figures) -> Belts
    ensures { result ≡ the_belts_in f }
{
    Belts {
        la2: f.la2,
        lo2: f.lo2,
        di: f.di,
        circles: f.circles,
    }
}

// A thinned grid with counts that no octant has: what figures of no kind stand for.
fn no_kind(f: Figures) -> Geometry
    ensures { result ≡ Thinned (record { edges = the_edges_in f; start = Neither }) }
{
    Geometry::Thinned(Octant {
        edges: edges_in(f),
        start: Start::Neither,
    })
}

// The geometry of figures, whatever they are.
#[tactic(auto, unfolding(rules::specs::Figures::the_geometry_of))]
pub fn geometry_of(f: Figures) -> Geometry
    ensures { result ≡ the_geometry_of f }
{
    match (f.kind, f.rows) {
        (0, rows) => geometry_by(rows, edges_in(f)),
        (1, 0) => Geometry::Mercator(cylinder_in(f)),
        (3, 0) => Geometry::Lambert(cone_in(f)),
        (4, 0) => Geometry::Gaussian(belts_in(f)),
        (5, 0) => Geometry::Polar(plane_in(f)),
        _ => no_kind(f),
    }
}
