// The listing of a message as text: a line of what its header says, then a line for each row of its chart, or one that
// says why it is refused.
#![tactic(auto)]

ghost use Rattle.std.specs.Prelude.{◌≡◌, ◌++◌, ◌+◌, ◌≤◌, length};
ghost use Rattle.bits.specs.Bits.{placed};
ghost use Rattle.rules.specs.Bounds.{listed_room};
ghost use Rattle.rules.specs.Grid.{shape_of, points_of};
ghost use Rattle.rules.specs.Bitmap.{mark_of};
ghost use Rattle.rules.specs.Listing.{row_lines, the_first_line, refused_line};
ghost use Rattle.listing.specs.Text.{Wrote, counts as the_counts, scales as the_scales, text_room, listed};

mod rows; // rows.rt: the rows of the chart
mod text; // text.rt: letters, words and numbers

use crate::rows::rows;
use crate::text::{hex, letter, number, signed, word};
use chart::{columns_on, rows_on, shape_of};
use field::read;
use rules::bounds::{LISTED_MOST, LISTED_ROOM};
use rules::{Header, Signed};

// Room for every listing: in the first line seven numbers of at most ten digits, two of them with a sign, and eight hex
// digits; then 4,096 values of at most ten digits; and a letter after each.
pub const TEXT_ROOM: usize = 45144;

// Points, present, columns and rows, with the space after each.
fn counts(text: &mut [u8], points: u32, present: u32, columns: u32, rows: u32) -> usize
    requires { 44 ≤ length text.old }
    ensures { (Wrote text.old text.new 0 result (the_counts points present columns rows))
        × (result ≤ 44) }
{
    let a = number(text, 0, points, b' ');
    let b = number(text, a, present, b' ');
    let c = number(text, b, columns, b' ');
    number(text, c, rows, b' ')
}

// D, E, R and N, to the end of the line.
fn scales(text: &mut [u8], at: usize, d: Signed, e: Signed, r: u32, bits: u8) -> usize
    requires { at + 44 ≤ length text.old }
    ensures { (Wrote text.old text.new at result (the_scales d.value e.value r bits))
        × (result ≤ at + 44) }
{
    let f = signed(text, at, d.value, b' ');
    let g = signed(text, f, e.value, b' ');
    let h = hex(text, g, r, b' ');
    number(text, h, bits as u32, b'\n')
}

// "Line 1: points, present, columns, rows, D, E, R as eight hex digits, N".
fn first_line(text: &mut [u8], h: Header) -> usize
    requires { 88 ≤ length text.old }
    ensures { (Wrote text.old text.new 0 result (the_first_line h)) × (result ≤ 88) }
{
    let shape = shape_of(h.grid);
    let half = counts(text, h.points, h.present, columns_on(shape), rows_on(shape));
    scales(text, half, h.d, h.scale.e, h.scale.r, h.packing.bits)
}

// "A refusal prints `refused` and its number".
fn refused(text: &mut [u8], number: u32) -> usize
    requires { 88 ≤ length text.old }
    ensures { (Wrote text.old text.new 0 result (refused_line number)) × (result ≤ 88) }
{
    let a = word(text, 0, b"refused");
    let b = letter(text, a, b' ');
    crate::text::number(text, b, number, b'\n')
}

// The first line and the rows of a message that is taken.
fn lines(text: &mut [u8], h: Header, values: &[u32], marks: &[u8]) -> usize
    requires text_room_in_bounds { text_room ≤ length text.old }
    requires grid_bound { points_of h.grid ≤ listed_room }
    requires listed_room_in_bounds { listed_room ≤ length values.now }
    ensures { (Wrote text.old text.new 0 result
        (the_first_line h ++ row_lines (mark_of marks.now) values.now (shape_of h.grid)))
        × (result ≤ text_room) }
{
    let next = first_line(text, h);
    rows(text, next, values, marks, shape_of(h.grid))
}

// Puts the listing of the octets s at the front of the text and answers its length; where the text has less than
// TEXT_ROOM octets it stays and the answer is 0.
pub fn list(s: &[u8], text: &mut [u8]) -> u32
    ensures value { result ≡ length (listed s.now text.old) }
    ensures text_after { text.new ≡ placed text.old 0 (listed s.now text.old) }
{
    if text.len() < TEXT_ROOM {
        return 0;
    }
    if s.len() > LISTED_MOST {
        return refused(text, 1) as u32;
    }
    let mut values = [0u32; LISTED_ROOM];
    let mut marks = [0u8; LISTED_ROOM];
    match read(s, 0, b"", &mut values, &mut marks) {
        Ok(h) => lines(text, h, &values, &marks) as u32,
        Err(r) => refused(text, r.number) as u32,
    }
}
