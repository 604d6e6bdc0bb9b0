// X at present points, put one after another. The list of X stands nowhere: a block of it is made where it is put.
ghost use Rattle.std.specs.Prelude.{◌≡◌, ℕ, ◌+◌, ◌*◌, ◌/◌, ◌^◌, ◌<◌, ◌≤◌, length, get_or};
ghost use Rattle.bits.specs.Bits.{count, packed_into};
ghost use Rattle.bits.specs.Tables.{tab};
ghost use Rattle.rules.specs.Bounds.{the_bits_most};
ghost use Rattle.rules.specs.Bitmap.{mark_of, value_of};
ghost use Rattle.rules.specs.Points.{gathered};
ghost use Rattle.writable.specs.Listed.{Listed};
ghost use Rattle.steps.specs.Steps.{step_of};
ghost use Rattle.packer.specs.Scaled.{scaled_from};

use blocks::{BLOCK, Progress, ROOM, put_block, put_last};
use scaling::Choice;
use steps::scale;

// X at present points, a block of points at a time: X is made of absent numbers too, where it counts for nothing.
fn put_points(
    numbers: &[i32],
    marks: &[u8],
    r: i32,
    e: u8,
    bits: u8,
    xs: &mut [u32; BLOCK],
    held: &mut [u32; ROOM],
    out: &mut [u8],
)
    requires bits_le_bits_most { bits ≤ the_bits_most }
    requires listed { Listed (scaled_from numbers.now marks.now r e) marks.now bits }
    requires bits_in_bounds { count (mark_of marks.now) 0 (length numbers.now) * bits / 8 + 4 ≤ length out.old }
    ensures { out.new ≡
        packed_into bits
        (gathered (mark_of marks.now) (value_of (scaled_from numbers.now marks.now r e))
        (length numbers.now)) out.old }
{
    let mut progress = Progress { place: 0, held: 0 };
    for (b, block) in numbers.chunks(BLOCK).enumerate() {
        scale(block, r, e, xs);
        progress = put_block(
            &xs[..block.len()],
            marks,
            b * BLOCK,
            bits,
            held,
            progress,
            out,
        );
    }
    put_last(held, progress, bits, out);
}

// X of every number, each block made where it is held.
fn put_every(numbers: &[i32], r: i32, e: u8, bits: u8, held: &mut [u32; ROOM], out: &mut [u8])
    requires bits_le_bits_most { bits ≤ the_bits_most }
    requires by_index { (k : ℕ) → get_or (tab (step_of numbers.now r e) (length numbers.now)) k 0 < 2 ^ bits }
    requires bits_in_bounds { length numbers.now * bits / 8 + 4 ≤ length out.old }
    ensures { out.new ≡
        packed_into bits (tab (step_of numbers.now r e) (length numbers.now)) out.old }
{
    let mut place: usize = 0;
    for b in 0..numbers.len() / BLOCK {
        scale(&numbers[b * BLOCK..b * BLOCK + BLOCK], r, e, held);
        put_last(
            held,
            Progress {
                place: place,
                held: BLOCK,
            },
            bits,
            out,
        );
        place += bits as usize * 32;
    }
    let rest = &numbers[numbers.len() / BLOCK * BLOCK..];
    scale(rest, r, e, held);
    put_last(
        held,
        Progress {
            place: place,
            held: rest.len(),
        },
        bits,
        out,
    );
}

// X at the m present points, of every number where every point is present.
pub(crate) fn put_scaled(
    numbers: &[i32],
    marks: &[u8],
    choice: Choice,
    bits: u8,
    m: u32,
    out: &mut [u8],
)
    requires bits_le_bits_most { bits ≤ the_bits_most }
    requires listed { Listed (scaled_from numbers.now marks.now choice.reference choice.exponent) marks.now
        bits }
    requires m_value { m ≡ count (mark_of marks.now) 0 (length numbers.now) }
    requires bits_in_bounds { m * bits / 8 + 4 ≤ length out.old }
    ensures { out.new ≡
        packed_into bits
        (gathered (mark_of marks.now)
        (value_of (scaled_from numbers.now marks.now choice.reference choice.exponent))
        (length numbers.now)) out.old }
{
    let r = choice.reference;
    let e = choice.exponent;
    let mut held = [0u32; ROOM];
    if m as usize == numbers.len() {
        put_every(numbers, r, e, bits, &mut held, out);
    } else {
        let mut xs = [0u32; BLOCK];
        put_points(numbers, marks, r, e, bits, &mut xs, &mut held, out);
    }
}
