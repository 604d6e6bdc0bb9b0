// The records that cross to C, by value and in its layout: those that go out, and how each is made of an answer; and,
// in forms.rt, the one that comes in.
#![tactic(auto)]

ghost use Rattle.std.specs.Prelude.{◌≡◌};
ghost use Rattle.records.specs.Records.{the_bitmap_kind, the_bitmap_number, the_part_record, the_grid_record};
ghost use Rattle.records.specs.Records.{the_header_record};
ghost use Rattle.records.specs.Records.{the_place_record, the_point_record, the_display_record, the_written_record};
ghost use Rattle.rules.specs.Answers.{said_by};
ghost use Rattle.rules.specs.Reading.{refused_by};
ghost use Rattle.rules.specs.Table.{refusal as the_refusal};
ghost use Rattle.records.specs.Records.{the_check_record};
ghost use Rattle.records.specs.Records.{with_reply, header_answer, display_answer, length_answer, check_answer};
ghost use Rattle.records.specs.Records.{entries_answer};
ghost use Rattle.records.specs.Records.{the_indexed_record, the_cursor_record};

mod forms; // forms.rt: the record that comes in

pub use forms::{FormRecord, form_by, grid_back, scale_by};
use grid::the_grid;
use kinds::figures_of;
use octets::plain;
use reply::refusal;
use rules::{
    Bitmap, Display, Grid, GridPoint, Header, Moment, Packing, Part, Places, Refusal, Scale,
    Signed, Spot,
};

// A part of the message (stored 0) or of the lent bitmap (stored 1).
#[repr(C)]
#[derive(Clone, Copy)]
pub struct PartRecord {
    pub stored: u32,
    pub start: u32,
    pub len: u32,
}

// A grid of any kind; what its kind does not have is zero.
#[repr(C)]
#[derive(Clone, Copy)]
pub struct GridRecord {
    pub la1: i32,
    pub lo1: i32,
    pub la2: i32,
    pub lo2: i32,
    pub lov: i32,
    pub latin1: i32,
    pub latin2: i32,
    pub pole_la: i32,
    pub pole_lo: i32,
    pub dx: u32,
    pub dy: u32,
    pub ni: u16,
    pub nj: u16,
    pub di: u16,
    pub dj: u16,
    pub circles: u16,
    pub resolution: u8,
    pub scan: u8,
    pub rows: u8,
    pub kind: u8,
    pub centre: u8,
}

#[repr(C)]
#[derive(Clone, Copy)]
pub struct HeaderRecord {
    pub reply: u32,
    pub section: u32,
    pub place: u32,
    pub points: u32,
    pub present: u32,
    pub d: i32,
    pub e: i32,
    pub r: u32,
    pub bitmap: u32,
    pub grid: GridRecord,
    pub pds: PartRecord,
    pub gds: PartRecord,
    pub bms: PartRecord,
    pub bds: PartRecord,
    pub bitmap_number: u16,
    pub year: u16,
    pub month: u8,
    pub day: u8,
    pub hour: u8,
    pub minute: u8,
    pub packing_flags: u8,
    pub bits: u8,
}

#[repr(C)]
#[derive(Clone, Copy)]
pub struct PlaceRecord {
    pub on: u32,
    pub row: u32,
    pub column: u32,
}

#[repr(C)]
#[derive(Clone, Copy)]
pub struct PointRecord {
    pub on: u32,
    pub point: u32,
}

#[repr(C)]
#[derive(Clone, Copy)]
pub struct DisplayRecord {
    pub reply: u32,
    pub section: u32,
    pub place: u32,
    pub reference: f64,
    pub step: f64,
}

#[repr(C)]
#[derive(Clone, Copy)]
pub struct WrittenRecord {
    pub reply: u32,
    pub len: u32,
}

#[repr(C)]
#[derive(Clone, Copy)]
pub struct CheckRecord {
    pub reply: u32,
    pub section: u32,
    pub place: u32,
}

#[repr(C)]
#[derive(Clone, Copy)]
pub struct IndexedRecord {
    pub reply: u32,
    pub section: u32,
    pub place: u32,
    pub entries: u32,
}

#[repr(C)]
#[derive(Clone, Copy)]
pub struct CursorRecord {
    pub reply: u32,
    pub section: u32,
    pub place: u32,
    pub kind: u32,
    pub value: u32,
}

// A bitmap's kind as a number.
fn bitmap_kind(bitmap: Bitmap) -> u32
    ensures { result ≡ the_bitmap_kind bitmap }
{
    match bitmap {
        Bitmap::Without => 0,
        Bitmap::Carried => 1,
        Bitmap::Stored(_) => 2,
    }
}

// A stored bitmap's number, and 0 for the other kinds.
fn bitmap_number(bitmap: Bitmap) -> u16
    ensures { result ≡ the_bitmap_number bitmap }
{
    match bitmap {
        Bitmap::Without => 0,
        Bitmap::Carried => 0,
        Bitmap::Stored(number) => number,
    }
}

// The value of a signed field.
fn value(z: Signed) -> i32
    ensures { result ≡ z.value }
{
    z.value
}

// A part of the message.
pub fn part_record(p: Part) -> PartRecord
    ensures { result ≡ the_part_record p }
{
    PartRecord {
        stored: 0,
        start: p.start,
        len: p.len,
    }
}

// A grid, field by field.
fn grid_record(g: Grid) -> GridRecord
    ensures { result ≡ the_grid_record g }
{
    let a = g.geometry;
    let x = figures_of(a);
    GridRecord {
        la1: value(g.la1),
        lo1: value(g.lo1),
        la2: value(x.la2),
        lo2: value(x.lo2),
        lov: value(x.lov),
        latin1: value(x.latin1),
        latin2: value(x.latin2),
        pole_la: value(x.pole_la),
        pole_lo: value(x.pole_lo),
        dx: x.dx,
        dy: x.dy,
        ni: g.ni,
        nj: g.nj,
        di: x.di,
        dj: x.dj,
        circles: x.circles,
        resolution: g.flags,
        scan: g.scan,
        rows: x.rows,
        kind: x.kind,
        centre: x.centre,
    }
}

// What a refused message says: nothing.
fn nothing() -> Header
    ensures { result ≡ said_by (refused_by (the_refusal 0)) }
{
    let none = Part { start: 0, len: 0 };
    let zero = plain(0);
    Header {
        places: Places {
            pds: none,
            gds: none,
            bms: none,
            bds: none,
        },
        time: Moment {
            year: 0,
            month: 0,
            day: 0,
            hour: 0,
            minute: 0,
        },
        d: zero,
        grid: the_grid(None),
        points: 0,
        bitmap: Bitmap::Without,
        present: 0,
        packing: Packing { flags: 0, bits: 0 },
        scale: Scale { e: zero, r: 0 },
    }
}

// A reply and what is said with it, field by field.
fn replied_record(refusal: Refusal, h: Header) -> HeaderRecord
    ensures { result ≡ the_header_record (with_reply refusal h) }
{
    let bitmap = h.bitmap;
    let grid = h.grid;
    let places = h.places;
    HeaderRecord {
        reply: refusal.number,
        section: refusal.section,
        place: refusal.place,
        points: h.points,
        present: h.present,
        d: value(h.d),
        e: value(h.scale.e),
        r: h.scale.r,
        bitmap: bitmap_kind(bitmap),
        grid: grid_record(grid),
        pds: part_record(places.pds),
        gds: part_record(places.gds),
        bms: part_record(places.bms),
        bds: part_record(places.bds),
        bitmap_number: bitmap_number(bitmap),
        year: h.time.year,
        month: h.time.month,
        day: h.time.day,
        hour: h.time.hour,
        minute: h.time.minute,
        packing_flags: h.packing.flags,
        bits: h.packing.bits,
    }
}

// What a message says, or zeros beside the reply that refuses it.
pub fn header_record(answer: Result<Header, Refusal>) -> HeaderRecord
    ensures { result ≡ the_header_record (header_answer answer) }
{
    match answer {
        Ok(h) => replied_record(refusal(0), h),
        Err(r) => replied_record(r, nothing()),
    }
}

// A place of the chart, or that there is none.
pub fn place_record(charted: Option<Spot>) -> PlaceRecord
    ensures { result ≡ the_place_record charted }
{
    match charted {
        Some(c) => PlaceRecord {
            on: 1,
            row: c.row,
            column: c.column,
        },
        None => PlaceRecord {
            on: 0,
            row: 0,
            column: 0,
        },
    }
}

// A grid point, or that there is none.
pub fn point_record(pointed: Option<GridPoint>) -> PointRecord
    ensures { result ≡ the_point_record pointed }
{
    match pointed {
        Some(k) => PointRecord { on: 1, point: k.0 },
        None => PointRecord { on: 0, point: 0 },
    }
}

// R and 2^E, or zeros beside the reply that refuses them.
pub fn display_record(answer: Result<Display, Refusal>) -> DisplayRecord
    ensures { result ≡ the_display_record (display_answer answer) }
{
    match answer {
        Ok(d) => DisplayRecord {
            reply: 0,
            section: 0,
            place: 0,
            reference: d.reference,
            step: d.step,
        },
        Err(unshown) => DisplayRecord {
            reply: unshown.number,
            section: unshown.section,
            place: unshown.place,
            reference: 0.0,
            step: 0.0,
        },
    }
}

// The length of what was written, or the reply that refuses it; no reply of the writer or the packer tells a section.
pub fn written_record(answer: Result<u32, Refusal>) -> WrittenRecord
    ensures { result ≡ the_written_record (length_answer answer) }
{
    let (reply, len) = match answer {
        Ok(len) => (0, len),
        Err(r) => (r.number, 0),
    };
    WrittenRecord { reply, len }
}

// The check's yes, or its reply and what it tells.
pub fn check_record(answer: Result<(), Refusal>) -> CheckRecord
    ensures { result ≡ the_check_record (check_answer answer) }
{
    let fault = match answer {
        Ok(()) => refusal(0),
        Err(r) => r,
    };
    CheckRecord {
        reply: fault.number,
        section: fault.section,
        place: fault.place,
    }
}

// How many entries a filling took, or the reply that refuses it and what it tells.
pub fn indexed_record(answer: Result<u32, Refusal>) -> IndexedRecord
    ensures { result ≡ the_indexed_record (entries_answer answer) }
{
    let (unfilled, entries) = match answer {
        Ok(n) => (refusal(0), n),
        Err(r) => (r, 0),
    };
    IndexedRecord {
        reply: unfilled.number,
        section: unfilled.section,
        place: unfilled.place,
        entries,
    }
}

// A value, its absence, or the reply and what it tells.
pub fn cursor_record(under: Result<Option<u32>, Refusal>) -> CursorRecord
    ensures { result ≡ the_cursor_record under }
{
    match under {
        Err(why) => CursorRecord {
            reply: why.number,
            section: why.section,
            place: why.place,
            kind: 0,
            value: 0,
        },
        Ok(None) => CursorRecord {
            reply: 0,
            section: 0,
            place: 0,
            kind: 2,
            value: 0,
        },
        Ok(Some(x)) => CursorRecord {
            reply: 0,
            section: 0,
            place: 0,
            kind: 1,
            value: x,
        },
    }
}
