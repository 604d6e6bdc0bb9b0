// The records that every part of the codec shares, and, in specs/, what document 01 means, as R-1 to R-4 and R-6 of
// document 02 amend it. All records go by value; a refused answer has zero in every other field.
#![tactic(auto)]

pub mod bounds;

// A reply: 0 is acceptance, any other number stands in the table of refusals. Of a section length that is refused (20
// to 23) the section's number, and the place in the message of its first octet, or of the first octet left over,
// counted from 1; else both are 0.
#[derive(Clone, Copy, PartialEq, Eq)]
pub struct Refusal {
    pub number: u32,
    pub section: u32,
    pub place: u32,
}

// A field of a sign bit and a magnitude.
#[derive(Clone, Copy, PartialEq, Eq)]
pub struct Signed {
    pub value: i32,
}

// A part of a slice: the place of its first octet, counted from 0, and how many octets it has.
#[derive(Clone, Copy, PartialEq, Eq)]
pub struct Part {
    pub start: u32,
    pub len: u32,
}

// The four sections between the indicator and the end. An absent one has length 0.
#[derive(Clone, Copy, PartialEq, Eq)]
pub struct Places {
    pub pds: Part,
    pub gds: Part,
    pub bms: Part,
    pub bds: Part,
}

// The reference time of a field, with the whole year: 1701 to 9900 where the time is not refused.
#[derive(Clone, Copy, PartialEq, Eq)]
pub struct Moment {
    pub year: u16,
    pub month: u8,
    pub day: u8,
    pub hour: u8,
    pub minute: u8,
}

// At which end of a thinned octant its rows begin, in message order; Neither: counts of points that no octant has.
#[derive(Clone, Copy, PartialEq, Eq)]
pub enum Start {
    Equator,
    Pole,
    Neither,
}

// A rectangle of Ni columns and Nj rows, and the scanning flags.
#[derive(Clone, Copy, PartialEq, Eq)]
pub struct Rectangle {
    pub ni: u16,
    pub nj: u16,
    pub scan: u8,
}

// The rows of a thinned octant, each with its own count of points, and the scanning flags.
#[derive(Clone, Copy, PartialEq, Eq)]
pub struct Thinning {
    pub start: Start,
    pub scan: u8,
}

// What points, places and rows ask of a grid of any kind.
#[derive(Clone, Copy, PartialEq, Eq)]
pub enum Shape {
    Even(Rectangle),
    Uneven(Thinning),
}

// Where a latitude/longitude grid ends, and its steps.
#[derive(Clone, Copy, PartialEq, Eq)]
pub struct Edges {
    pub la2: Signed,
    pub lo2: Signed,
    pub di: u16,
    pub dj: u16,
}

// A thinned octant: such edges, and how its rows are counted.
#[derive(Clone, Copy, PartialEq, Eq)]
pub struct Octant {
    pub edges: Edges,
    pub start: Start,
}

// Where a Mercator grid ends, the latitude at which its cylinder cuts the earth, and its steps in metres.
#[derive(Clone, Copy, PartialEq, Eq)]
pub struct Cylinder {
    pub la2: Signed,
    pub lo2: Signed,
    pub latin: Signed,
    pub di: u32,
    pub dj: u32,
}

// Where a Gaussian grid ends, its step, and N, the latitude circles between a pole and the equator.
#[derive(Clone, Copy, PartialEq, Eq)]
pub struct Belts {
    pub la2: Signed,
    pub lo2: Signed,
    pub di: u16,
    pub circles: u16,
}

// A plane of projection: the meridian that is parallel to its y-axis (LoV), its steps in metres (Dx, Dy), and the
// projection centre flag. All that a polar stereographic grid has of its own.
#[derive(Clone, Copy, PartialEq, Eq)]
pub struct Plane {
    pub lov: Signed,
    pub dx: u32,
    pub dy: u32,
    pub centre: u8,
}

// A Lambert cone: such a plane, the two latitudes at which the cone cuts the earth, and its southern pole.
#[derive(Clone, Copy, PartialEq, Eq)]
pub struct Cone {
    pub plane: Plane,
    pub latin1: Signed,
    pub latin2: Signed,
    pub pole_la: Signed,
    pub pole_lo: Signed,
}

// What only its own kind of grid has.
#[derive(Clone, Copy, PartialEq, Eq)]
pub enum Geometry {
    LatLon(Edges),
    Thinned(Octant),
    Mercator(Cylinder),
    Lambert(Cone),
    Gaussian(Belts),
    Polar(Plane),
}

// A geometry in figures, as faces, tables and files hold it: which kind it is (GDS octet 6), how its rows are counted,
// and a place for whatever some kind has. What a kind does not have is zero.
#[derive(Clone, Copy, PartialEq, Eq)]
pub struct Figures {
    pub kind: u8,
    pub rows: u8,
    pub la2: Signed,
    pub lo2: Signed,
    pub di: u16,
    pub dj: u16,
    pub dx: u32,
    pub dy: u32,
    pub lov: Signed,
    pub latin1: Signed,
    pub latin2: Signed,
    pub pole_la: Signed,
    pub pole_lo: Signed,
    pub centre: u8,
    pub circles: u16,
}

// A grid: what every kind has in the same octets of its GDS, and its geometry.
#[derive(Clone, Copy, PartialEq, Eq)]
pub struct Grid {
    pub ni: u16,
    pub nj: u16,
    pub la1: Signed,
    pub lo1: Signed,
    pub flags: u8,
    pub scan: u8,
    pub geometry: Geometry,
}

// A row of the catalogue.
#[derive(Clone, Copy, PartialEq, Eq)]
pub struct Entry {
    pub number: u8,
    pub grid: Grid,
}

// The three ways to say which points are present: all are, by bits in the message, by the lent bitmap of a number.
#[derive(Clone, Copy, PartialEq, Eq)]
pub enum Bitmap {
    Without,
    Carried,
    Stored(u16),
}

// How the values are packed: flags (the high half of BDS octet 4) and N.
#[derive(Clone, Copy, PartialEq, Eq)]
pub struct Packing {
    pub flags: u8,
    pub bits: u8,
}

// What the values stand for: E, and R's four octets.
#[derive(Clone, Copy, PartialEq, Eq)]
pub struct Scale {
    pub e: Signed,
    pub r: u32,
}

// What is read off a message before it is judged, whatever its octets are.
#[derive(Clone, Copy, PartialEq, Eq)]
pub struct Parsed {
    pub places: Places,
    pub found: Option<Grid>,
    pub grid: Grid,
    pub points: u32,
    pub bitmap: Bitmap,
    pub packing: Packing,
}

// What a message says, but for its lists.
#[derive(Clone, Copy, PartialEq, Eq)]
pub struct Header {
    pub places: Places,
    pub time: Moment,
    pub d: Signed,
    pub grid: Grid,
    pub points: u32,
    pub bitmap: Bitmap,
    pub present: u32,
    pub packing: Packing,
    pub scale: Scale,
}

// What the caller of the writer and the packer chooses: a grid where a GDS is wanted, the kind of bitmap, the packing.
#[derive(Clone, Copy, PartialEq, Eq)]
pub struct Form {
    pub grid: Option<Grid>,
    pub bitmap: Bitmap,
    pub packing: Packing,
}

// R and 2^E as doubles.
#[derive(Clone, Copy, PartialEq)]
pub struct Display {
    pub reference: f64,
    pub step: f64,
}

// A grid point, numbered in message order from 0.
#[derive(Clone, Copy, PartialEq, Eq)]
pub struct GridPoint(pub u32);

// A place of the chart: row 0 is north, or where a kind has no latitudes to go by the greatest y; column 0 is west, or
// the least x.
#[derive(Clone, Copy, PartialEq, Eq)]
pub struct Spot {
    pub row: u32,
    pub column: u32,
}
