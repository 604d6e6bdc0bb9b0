// The record that comes in from C: what writer and packer are to choose. Any numbers in it stand for a form; a kind
// that has no name for one that the writer refuses.
ghost use Rattle.std.specs.Prelude.{◌≡◌};
ghost use Rattle.records.specs.Forms.{the_figures_back, the_grid_back, the_grid_by, the_bitmap_by, the_form_by};
ghost use Rattle.records.specs.Forms.{the_scale_by};

use crate::GridRecord;
use kinds::geometry_of;
use octets::plain;
use rules::{Bitmap, Figures, Form, Grid, Packing, Scale};

#[repr(C)]
#[derive(Clone, Copy)]
pub struct FormRecord {
    pub given: u32,
    pub bitmap: u32,
    pub grid: GridRecord,
    pub bitmap_number: u16,
    pub packing_flags: u8,
    pub bits: u8,
}

// The geometry that a record stands for, in figures.
fn figures_back(g: GridRecord) -> Figures
    ensures { result ≡ the_figures_back g }
{
    Figures {
        kind: g.kind,
        rows: g.rows,
        la2: plain(g.la2),
        lo2: plain(g.lo2),
        di: g.di,
        dj: g.dj,
        dx: g.dx,
        dy: g.dy,
        lov: plain(g.lov),
        latin1: plain(g.latin1),
        latin2: plain(g.latin2),
        pole_la: plain(g.pole_la),
        pole_lo: plain(g.pole_lo),
        centre: g.centre,
        circles: g.circles,
    }
}

// The grid that a record stands for.
pub fn grid_back(g: GridRecord) -> Grid
    ensures { result ≡ the_grid_back g }
{
    Grid {
        ni: g.ni,
        nj: g.nj,
        la1: plain(g.la1),
        lo1: plain(g.lo1),
        flags: g.resolution,
        scan: g.scan,
        geometry: geometry_of(figures_back(g)),
    }
}

// The grid given, by its kind: 0 none, 1 this one; another number is a grid that 9 refuses.
fn grid_by(kind: u32, g: GridRecord) -> Option<Grid>
    ensures { result ≡ the_grid_by kind g }
{
    if kind == 0 {
        return None;
    }
    if kind == 1 {
        return Some(grid_back(g));
    }
    Some(grid::the_grid(None))
}

// The bitmap by its kind: another number than 0, 1 and 2 is one that 10 refuses.
fn bitmap_by(kind: u32, number: u16) -> Bitmap
    ensures { result ≡ the_bitmap_by kind number }
{
    if kind == 0 {
        return Bitmap::Without;
    }
    if kind == 1 {
        return Bitmap::Carried;
    }
    if kind == 2 {
        return Bitmap::Stored(number);
    }
    Bitmap::Stored(0)
}

// What a record says that the caller chooses.
pub fn form_by(f: FormRecord) -> Form
    ensures { result ≡ the_form_by f }
{
    let g = f.grid;
    Form {
        grid: grid_by(f.given, g),
        bitmap: bitmap_by(f.bitmap, f.bitmap_number),
        packing: Packing {
            flags: f.packing_flags,
            bits: f.bits,
        },
    }
}

// E and R, as the writer takes them.
pub fn scale_by(e: i32, r: u32) -> Scale
    ensures { result ≡ the_scale_by e r }
{
    Scale { e: plain(e), r }
}
