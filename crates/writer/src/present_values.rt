// The values at present points, put one after another.
ghost use Rattle.std.specs.Prelude.{◌≡◌, ◌+◌, ◌*◌, ◌/◌, ◌≤◌, length};
ghost use Rattle.bits.specs.Bits.{count, packed_into};
ghost use Rattle.rules.specs.Bounds.{the_bits_most};
ghost use Rattle.rules.specs.Bitmap.{mark_of, value_of};
ghost use Rattle.rules.specs.Points.{gathered};
ghost use Rattle.writable.specs.Listed.{Listed};

use blocks::{BLOCK, Progress, ROOM, put_block, put_last};
use packs::pack;

// The values at present points, a block of points at a time.
fn put_points(values: &[u32], marks: &[u8], bits: u8, held: &mut [u32; ROOM], out: &mut [u8])
    requires bits_le_bits_most { bits ≤ the_bits_most }
    requires listed { Listed values.now marks.now bits }
    requires bits_in_bounds { count (mark_of marks.now) 0 (length values.now) * bits / 8 + 4 ≤ length out.old }
    ensures { out.new ≡
        packed_into bits
        (gathered (mark_of marks.now) (value_of values.now) (length values.now))
        out.old }
{
    let mut progress = Progress { place: 0, held: 0 };
    for (b, block) in values.chunks(BLOCK).enumerate() {
        progress = put_block(block, marks, b * BLOCK, bits, held, progress, out);
    }
    put_last(held, progress, bits, out);
}

// The values at the m present points, as a whole list where every point is present.
pub(crate) fn put_values(values: &[u32], marks: &[u8], bits: u8, m: u32, out: &mut [u8])
    requires bits_le_bits_most { bits ≤ the_bits_most }
    requires listed { Listed values.now marks.now bits }
    requires m_value { m ≡ count (mark_of marks.now) 0 (length values.now) }
    requires bits_in_bounds { m * bits / 8 + 4 ≤ length out.old }
    ensures { out.new ≡
        packed_into bits
        (gathered (mark_of marks.now) (value_of values.now) (length values.now))
        out.old }
{
    if m as usize == values.len() {
        pack(values, bits, out);
    } else {
        let mut held = [0u32; ROOM];
        put_points(values, marks, bits, &mut held, out);
    }
}
