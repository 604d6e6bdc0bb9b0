// The sections of a message laid down octet by octet, each at the place that the one before it reaches.
ghost use Rattle.std.specs.Prelude.{◌≡◌, false, [], ◌+◌, ◌-◌, ◌^◌, ◌<◌, ◌≤◌, length};
ghost use Rattle.bits.specs.Bits.{octets_for, placed};
ghost use Rattle.rules.specs.declared.Bitmap.TheVariants.{Carried};
ghost use Rattle.rules.specs.Bounds.{bms_head, bds_head, points_most, the_bits_most};
ghost use Rattle.rules.specs.Numbers.{octets, laid, even_from};
ghost use Rattle.rules.specs.Bitmap.{bms_fields, bms_of, mark_of};
ghost use Rattle.rules.specs.Values.{scale_fields};
ghost use Rattle.rules.specs.Writing.{indicator_fields};
ghost use Rattle.laws.specs.Signs.{SignFree};
ghost use Rattle.framing.specs.Layout.{the_bms_room, the_bds_room, front_room, front_by, head_by};
ghost use Rattle.framing.specs.Framing.{the_given_bad};

use crate::rooms::{BDS_OCTETS, BMS_OCTETS, bds_room, carried_room};
use gds_put::{gds_room, put_gds};
use layout::{GRIB, PDS_START};
use marks::put;
use puts::{put_four, put_octet, put_signed_two, put_three, put_two};
use rules::bounds::BMS_HEAD;
use rules::{Bitmap, Form, Packing, Scale, Signed};

// The indicator: GRIB, the total length, the edition.
fn put_indicator(out: &mut [u8], len: u32)
    requires in_bounds { 8 ≤ length out.old }
    requires len_bound { len < 2 ^ 24 }
    ensures { out.new ≡ placed out.old 0 (laid (indicator_fields len) []) }
{
    put_four(out, 0, 1, GRIB);
    put_three(out, 0, 5, len);
    put_octet(out, 0, 8, 1);
}

// The octets of s, from place at on.
fn copy(s: &[u8], out: &mut [u8], at: usize)
    requires { at + length s.now ≤ length out.old }
    ensures { out.new ≡ placed out.old at s.now }
{
    for i in 0..s.len() {
        out[at + i] = s[i];
    }
}

// What stands in a BMS before its bits.
fn put_bms(out: &mut [u8], b: usize, len: u32, unused: u8, number: u16)
    requires bms_head_in_bounds { b + bms_head ≤ length out.old }
    requires len_bound { len < 2 ^ 24 }
    ensures { out.new ≡ placed out.old b (laid (bms_fields len unused number) []) }
{
    put_three(out, b, 1, len);
    put_octet(out, b, 4, unused);
    put_two(out, b, 5, number);
}

// A BMS whose bits follow.
fn put_carried(out: &mut [u8], b: usize, marks: &[u8], n: u32)
    requires n_le_points_most { n ≤ points_most }
    requires n_in_bounds { b + even_from (bms_head + octets_for n) ≤ length out.old }
    ensures { out.new ≡ placed out.old b (bms_of Carried (mark_of marks.now) n) }
{
    let len = carried_room(n);
    let unused = 8 * (len - BMS_OCTETS) - n as usize;
    put_bms(out, b, len as u32, unused as u8, 0);
    put(marks, n, out, b + BMS_OCTETS, len - BMS_OCTETS);
}

// The BMS, and the place after it.
fn put_bitmap(out: &mut [u8], b: usize, bitmap: Bitmap, marks: &[u8], n: u32) -> usize
    requires n_le_points_most { n ≤ points_most }
    requires n_in_bounds { b + the_bms_room bitmap n ≤ length out.old }
    ensures value { result ≡ b + the_bms_room bitmap n }
    ensures out_after { out.new ≡ placed out.old b (bms_of bitmap (mark_of marks.now) n) }
{
    match bitmap {
        Bitmap::Without => b,
        Bitmap::Carried => {
            put_carried(out, b, marks, n);
            b + carried_room(n)
        }
        Bitmap::Stored(number) => {
            put_bms(out, b, BMS_HEAD, 0, number);
            b + BMS_OCTETS
        }
    }
}

// All that stands before the data section of a message of len octets, and the place after it.
pub(crate) fn lay_front(
    pds: &[u8],
    form: Form,
    marks: &[u8],
    n: u32,
    len: u32,
    out: &mut [u8],
) -> usize
    requires n_le_points_most { n ≤ points_most }
    requires len_bound { len < 2 ^ 24 }
    requires n_in_bounds { front_room (length pds.now) form n ≤ length out.old }
    requires grid_value { the_given_bad form.grid ≡ false }
    ensures value { result ≡ front_room (length pds.now) form n }
    ensures out_after { out.new ≡
        placed out.old 0 (front_by pds.now form (mark_of marks.now) n len) }
{
    let grid = form.grid;
    let bitmap = form.bitmap;
    put_indicator(out, len);
    copy(pds, out, PDS_START);
    let g = PDS_START + pds.len();
    put_gds(out, g, grid);
    put_bitmap(out, g + gds_room(grid), bitmap, marks, n)
}

// What stands in a BDS before its data; octet 4 holds flags and unused bits.
fn put_bds(out: &mut [u8], d: usize, len: u32, flags: u8, e: Signed, r: u32, bits: u8)
    requires bds_head_in_bounds { d + bds_head ≤ length out.old }
    requires len_bound { len < 2 ^ 24 }
    requires sign_free { SignFree 2 e }
    ensures { out.new ≡ placed out.old d (laid (scale_fields len flags e r bits) []) }
{
    put_three(out, d, 1, len);
    put_octet(out, d, 4, flags);
    put_signed_two(out, d, 5, e);
    put_four(out, d, 7, r);
    put_octet(out, d, 11, bits);
}

// What stands in the BDS of m values at place d before its data, and the data's last octet, which may be padding,
// cleared.
pub(crate) fn put_head(packing: Packing, scale: Scale, m: u32, out: &mut [u8], d: usize)
    requires bits_le_bits_most { packing.bits ≤ the_bits_most }
    requires flags_bound { packing.flags ≤ 2 }
    requires sign_free { SignFree 2 scale.e }
    requires m_le_points_most { m ≤ points_most }
    requires m_in_bounds { d + the_bds_room packing.bits m ≤ length out.old }
    ensures { out.new ≡
        placed (placed out.old d (head_by packing scale m)) (d + (the_bds_room packing.bits m - 1))
        (octets 1 0) }
{
    let bits = packing.bits;
    let len = bds_room(bits, m);
    let unused = 8 * (len - BDS_OCTETS) - m as usize * bits as usize;
    let flags = packing.flags * 16 + unused as u8;
    put_bds(out, d, len as u32, flags, scale.e, scale.r, bits);
    put_octet(out, d + (len - 1), 1, 0);
}
