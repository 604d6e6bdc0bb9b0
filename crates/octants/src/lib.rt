// The rows of a thinned octant, by the one table of their counts: how many points each has, how many there are, the row
// and position of a point, and the points before a row. Rows are in message order. All total; what is counted by
// Neither has no rows.
#![tactic(auto)]

ghost use Rattle.std.specs.Prelude.{◌≡◌, ◌<◌, ◌≤◌, length, get_or};
ghost use Rattle.rules.specs.Bounds.{octant_rows};
ghost use Rattle.rules.specs.Counts.{total, row_of, in_row, the_before_row, the_from_equator, counts_of};

use rules::bounds::{OCTANT_POINTS, OCTANT_ROWS};
use rules::{Spot, Start};

// Document 003's table: the points in each row, from the equator to the pole.
const FROM_EQUATOR: [u8; 73] = [
    73, 73, 73, 73, 73, 73, 73, 73, 72, 72, 72, 71, 71, 71, 70, 70, 69, 69, 68, 67, 67, 66, 65, 65,
    64, 63, 62, 61, 60, 60, 59, 58, 57, 56, 55, 54, 52, 51, 50, 49, 48, 47, 45, 44, 43, 42, 40, 39,
    38, 36, 35, 33, 32, 30, 29, 28, 26, 25, 23, 22, 20, 19, 17, 16, 14, 12, 11, 9, 8, 6, 5, 3, 2,
];

// The points before each of its rows, and all of them: sums of that table, so that a row far on costs no more than the
// first.
const BEFORE_EQUATOR: [u16; 74] = [
    0, 73, 146, 219, 292, 365, 438, 511, 584, 656, 728, 800, 871, 942, 1013, 1083, 1153, 1222,
    1291, 1359, 1426, 1493, 1559, 1624, 1689, 1753, 1816, 1878, 1939, 1999, 2059, 2118, 2176, 2233,
    2289, 2344, 2398, 2450, 2501, 2551, 2600, 2648, 2695, 2740, 2784, 2827, 2869, 2909, 2948, 2986,
    3022, 3057, 3090, 3122, 3152, 3181, 3209, 3235, 3260, 3283, 3305, 3325, 3344, 3361, 3377, 3391,
    3403, 3414, 3423, 3431, 3437, 3442, 3445, 3447,
];

// The points in row i of the table.
fn from_equator(i: usize) -> u8
    requires { i < octant_rows }
    ensures { result ≡ get_or the_from_equator i 0 }
{
    FROM_EQUATOR[i]
}

// How many points row j has; 0 past the last.
#[tactic(auto, unfolding(rules::specs::Counts::counts_of))]
pub fn count(start: Start, j: u32) -> u32
    ensures { result ≡ get_or (counts_of start) j 0 }
{
    if OCTANT_ROWS <= j {
        return 0;
    }
    match start {
        Start::Equator => from_equator(j as usize) as u32,
        Start::Pole => from_equator((OCTANT_ROWS - 1 - j) as usize) as u32,
        Start::Neither => 0,
    }
}

// How many rows there are.
#[tactic(auto, unfolding(rules::specs::Counts::counts_of, rules::specs::Counts::the_from_equator))]
pub fn rows(start: Start) -> u32
    ensures { result ≡ length (counts_of start) }
{
    match start {
        Start::Equator => OCTANT_ROWS,
        Start::Pole => OCTANT_ROWS,
        Start::Neither => 0,
    }
}

// How many points there are.
pub fn points(start: Start) -> u32
    ensures { result ≡ total (counts_of start) }
{
    match start {
        Start::Equator => OCTANT_POINTS,
        Start::Pole => OCTANT_POINTS,
        Start::Neither => 0,
    }
}

// The row of point k, and its position there.
pub fn scanned(start: Start, k: u32) -> Spot
    ensures { result ≡ record { row = row_of (counts_of start) k; column = in_row (counts_of start) k } }
{
    let high = rows(start);
    let mut left = k;
    for j in 0..high {
        let c = count(start, j);
        if left < c {
            return Spot {
                row: j,
                column: left,
            };
        }
        left -= c;
    }
    Spot {
        row: high,
        column: left,
    }
}

// The points before row i of the table, and before its end.
fn before_equator(i: usize) -> u16
    requires { i ≤ octant_rows }
    ensures { result ≡ the_before_row the_from_equator i }
{
    BEFORE_EQUATOR[i]
}

// How many points stand before row j; past the last row all do. From the pole these are the rows at the table's end.
#[tactic(auto, unfolding(rules::specs::Counts::counts_of, rules::specs::Counts::the_before_row))]
pub fn before_row(start: Start, j: u32) -> u32
    ensures { result ≡ the_before_row (counts_of start) j }
{
    if OCTANT_ROWS <= j {
        return points(start);
    }
    match start {
        Start::Equator => before_equator(j as usize) as u32,
        Start::Pole => OCTANT_POINTS - before_equator((OCTANT_ROWS - j) as usize) as u32,
        Start::Neither => 0,
    }
}
