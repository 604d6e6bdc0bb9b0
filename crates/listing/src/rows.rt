// The rows of the chart, from north, put into a lent text.
ghost use Rattle.std.specs.Prelude.{◌≡◌, ◌+◌, ◌*◌, ◌<◌, ◌≤◌, length};
ghost use Rattle.rules.specs.Bitmap.{mark_of};
ghost use Rattle.rules.specs.Chart.{the_points_on, the_rows_on, the_row_long, the_point_on};
ghost use Rattle.rules.specs.Listing.{ended, stop as the_stop, cell as the_cell, row_line, row_lines};
ghost use Rattle.listing.specs.Text.{Wrote};

use crate::text::{letter, number};
use chart::{point_at, row_long, rows_on};
use marks::present;
use rules::{GridPoint, Shape, Spot};

// The grid point at a row and a column of the chart.
fn point(g: Shape, row: u32, column: u32) -> usize
    requires row_bound { row < the_rows_on g }
    requires column_bound { column < the_row_long g row }
    ensures { (result ≡ the_point_on g (record { row = row; column = column })) × (result < the_points_on g) }
{
    let p = point_at(g, Spot { row, column });
    match p {
        Some(k) => k.0 as usize,
        None => 0,
    }
}

// What follows word j of n.
fn stop(n: u32, j: u32) -> u8
    requires { j < n }
    ensures { result ≡ the_stop n j }
{
    if j + 1 == n { b'\n' } else { b' ' }
}

// What stands at a grid point, and the letter after it.
fn cell(text: &mut [u8], at: usize, values: &[u32], marks: &[u8], i: usize, stop: u8) -> usize
    requires at_in_bounds { at + 11 ≤ length text.old }
    requires i_in_bounds { i < length values.now }
    ensures { Wrote text.old text.new at result
        (ended (the_cell (mark_of marks.now) values.now i) stop) }
{
    if present(marks, i) {
        return number(text, at, values[i], stop);
    }
    let next = letter(text, at, b'-');
    letter(text, next, stop)
}

// Row r of the chart, a line.
fn row(text: &mut [u8], at: usize, values: &[u32], marks: &[u8], g: Shape, r: u32) -> usize
    requires r_in_bounds { at + the_row_long g r * 11 ≤ length text.old }
    requires r_bound { r < the_rows_on g }
    requires g_in_bounds { the_points_on g ≤ length values.now }
    ensures { Wrote text.old text.new at result
        (row_line (mark_of marks.now) values.now g r) }
{
    let wide = row_long(g, r);
    let mut next = at;
    for c in 0..wide {
        let i = point(g, r, c);
        next = cell(text, next, values, marks, i, stop(wide, c));
    }
    next
}

// All rows.
pub(crate) fn rows(text: &mut [u8], at: usize, values: &[u32], marks: &[u8], g: Shape) -> usize
    requires g_in_bounds { at + the_points_on g * 11 ≤ length text.old }
    requires g_in_bounds_2 { the_points_on g ≤ length values.now }
    ensures { (Wrote text.old text.new at result
        (row_lines (mark_of marks.now) values.now g)) × (result ≤ at + the_points_on g * 11) }
{
    let mut next = at;
    for r in 0..rows_on(g) {
        next = row(text, next, values, marks, g, r);
    }
    next
}
