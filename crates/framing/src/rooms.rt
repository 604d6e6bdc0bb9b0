// How many octets each section of a message takes.
ghost use Rattle.std.specs.Prelude.{◌≡◌, ◌+◌, ◌^◌, ◌<◌, ◌≤◌, length};
ghost use Rattle.bits.specs.Bits.{octets_for};
ghost use Rattle.rules.specs.Bounds.{bms_head, pds_most, points_most, the_bits_most};
ghost use Rattle.rules.specs.Numbers.{even_from};
ghost use Rattle.framing.specs.Layout.{the_bms_room, the_bds_room, the_message_room};

use gds_put::gds_room;
use layout::PDS_START;
use rules::bounds::{BDS_HEAD, BMS_HEAD};
use rules::{Bitmap, Form};

// What stands before a section's bits, as places are counted.
pub(crate) const BMS_OCTETS: usize = BMS_HEAD as usize;

pub(crate) const BDS_OCTETS: usize = BDS_HEAD as usize;

// The least even length that holds c octets.
fn even(c: usize) -> usize
    requires { c < 2 ^ 60 }
    ensures { result ≡ even_from c }
{
    c + c % 2
}

// How many octets a BMS takes whose bits follow.
pub(crate) fn carried_room(n: u32) -> usize
    ensures { result ≡ even_from (bms_head + octets_for n) }
{
    even(BMS_OCTETS + (n as usize + 7) / 8)
}

// How many octets the BMS takes, by the kind of bitmap.
fn bms_room(bitmap: Bitmap, n: u32) -> usize
    ensures { result ≡ the_bms_room bitmap n }
{
    match bitmap {
        Bitmap::Without => 0,
        Bitmap::Carried => carried_room(n),
        Bitmap::Stored(_) => BMS_OCTETS,
    }
}

// How many octets a BDS of m values takes.
pub(crate) fn bds_room(bits: u8, m: u32) -> usize
    requires bits_le_bits_most { bits ≤ the_bits_most }
    requires m_le_points_most { m ≤ points_most }
    ensures { result ≡ the_bds_room bits m }
{
    even(BDS_OCTETS + (m as usize * bits as usize + 7) / 8)
}

// How many octets a message takes.
pub(crate) fn message_room(pds: usize, form: Form, n: u32, m: u32) -> usize
    requires pds_le_pds_most { pds ≤ pds_most }
    requires n_le_points_most { n ≤ points_most }
    requires m_le_points_most { m ≤ points_most }
    requires bits_le_bits_most { form.packing.bits ≤ the_bits_most }
    ensures { result ≡ the_message_room pds form n m }
{
    let grid = form.grid;
    let bitmap = form.bitmap;
    PDS_START
        + (pds + (gds_room(grid) + bms_room(bitmap, n)))
        + (bds_room(form.packing.bits, m) + 4)
}
