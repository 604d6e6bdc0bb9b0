// The bounds of specs/Bounds as code. A range that one field alone has stands at its test.

// Octets in a message.
pub const MESSAGE_LEAST: usize = 8;

pub const MESSAGE_MOST: usize = 262144;

// The least length of each section, and the most of a PDS (refusal 21, and 5 of the writer).
pub const PDS_LEAST: u32 = 28;

pub const PDS_MOST: u32 = 1024;

pub const GDS_LEAST: u32 = 32;

pub const BMS_LEAST: u32 = 6;

pub const BDS_LEAST: u32 = 12;

// What stands in a BMS before its bits, and in a BDS before its data: "data from 12".
pub const BMS_HEAD: u32 = 6;

pub const BDS_HEAD: u32 = 11;

// "GDS: length 1-3 is 32"; of a Mercator or Lambert grid 42, and of a thinned octant "178 octets".
pub const GDS_LENGTH: u32 = 32;

pub const LONG_LENGTH: u32 = 42;

pub const THINNED_LENGTH: u32 = 178;

// The rows of a thinned octant, and its points.
pub const OCTANT_ROWS: u32 = 73;

pub const OCTANT_POINTS: u32 = 3447;

// Ni, Nj, and the points n = Ni × Nj.
pub const SIDE_MOST: u16 = 65534;

pub const POINTS_MOST: u32 = 65536;

// Magnitudes of a latitude and a longitude.
pub const LATITUDE_MOST: i32 = 90000;

pub const LONGITUDE_MOST: i32 = 360000;

// What three octets hold at most.
pub const DISTANCE_MOST: u32 = 16777215;

// Grid points in a group of the index for a cursor; the last group may have fewer.
pub const GROUP_LONG: u32 = 256;

// Bits per value N.
pub const BITS_MOST: u8 = 24;

// E for display.
pub const SHOWN_LEAST: i32 = -1022;

pub const SHOWN_MOST: i32 = 1023;

// The listing program: octets of a message, points that it lends room for.
pub const LISTED_MOST: usize = 32768;

pub const LISTED_ROOM: usize = 4096;

// A source number and a whole R, in magnitude, and E in the checker and packer.
pub const SOURCE_MOST: i32 = 8388607;

pub const STEP_MOST: i32 = 24;

// E as a field of a message, in magnitude.
pub const EXPONENT_MOST: i32 = 32767;
