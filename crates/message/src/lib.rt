// The header of a message: refusals 1 to 12, with 20 to 23 in the place of 5, in stages, as one answer. All total.
#![tactic(auto)]

ghost use Rattle.std.specs.Prelude.{◌≡◌};
ghost use Rattle.rules.specs.Answers.{judged, said_by, header_reply};
ghost use Rattle.rules.specs.Reading.{parsed_of, found_by, header_of};
ghost use Rattle.rules.specs.Bitmap.{lent_as};
ghost use Rattle.laws.specs.Groups.{grid_rows, data_rows, earlier_rows};

use bitmap::{bitmap_at, bitmap_bad, present};
use data_section::{length_bad, packing_at, packing_bad, scale_at};
use gds::{gds_bad, grid_in};
use grid::{grid_bad, grid_from, grid_missing, points, the_grid};
use layout::{PDS_START, has_bitmap, has_grid, layout, places};
use octets::signed_two;
use reply::refuse;
use rules::{Bitmap, Grid, Header, Packing, Parsed, Part, Places, Refusal};
use time::moment_at;

// Rows 7 to 9.
#[tactic(auto, unfolding(rules::specs::Answers::judged, laws::specs::Groups::grid_rows))]
fn grid_judged(s: &[u8], p: Places, found: Option<Grid>) -> Result<(), Refusal>
    ensures { result ≡ judged (grid_rows s.now p found) }
{
    refuse(7, grid_missing(found))?;
    refuse(8, has_grid(s) & gds_bad(s, p.gds))?;
    refuse(9, grid_bad(the_grid(found)))
}

// Rows 10 and 11.
#[tactic(auto, unfolding(rules::specs::Answers::judged, laws::specs::Groups::data_rows))]
fn data_judged(
    s: &[u8],
    number: u16,
    store: &[u8],
    bms: Part,
    bitmap: Bitmap,
    n: u32,
    packing: Packing,
) -> Result<(), Refusal>
    ensures { result ≡
        judged (data_rows s.now (lent_as number store.now) bms bitmap n packing) }
{
    refuse(10, bitmap_bad(s, number, store, bms, bitmap, n))?;
    refuse(11, packing_bad(packing))
}

// What the octets say, whatever they are.
fn parse(s: &[u8]) -> Parsed
    ensures { result ≡ parsed_of s.now }
{
    let places = places(s);
    let given = grid_in(s, has_grid(s), places.gds);
    let found = grid_from(given, s, PDS_START);
    let grid = the_grid(found);
    Parsed {
        places,
        found,
        grid,
        points: points(grid),
        bitmap: bitmap_at(s, has_bitmap(s), places.bms.start),
        packing: packing_at(s, places.bds.start as usize),
    }
}

// Rows 1 to 11: all but the length of the data, which waits for the count of present points.
#[tactic(auto, using(reply::proofs::Judged::judged_append), unfolding(laws::specs::Groups::earlier_rows),)]
fn judge(s: &[u8], number: u16, store: &[u8], q: Parsed) -> Result<(), Refusal>
    ensures { result ≡ judged (earlier_rows s.now (lent_as number store.now) q) }
{
    layout(s)?;
    grid_judged(s, q.places, q.found)?;
    data_judged(
        s,
        number,
        store,
        q.places.bms,
        q.bitmap,
        q.points,
        q.packing,
    )
}

// The answer to a message that is taken, m points of which are present.
fn taken(s: &[u8], q: Parsed, m: u32) -> Header
    ensures { result ≡ said_by (found_by s.now q m) }
{
    Header {
        places: q.places,
        time: moment_at(s, PDS_START),
        d: signed_two(s, PDS_START, 27),
        grid: q.grid,
        points: q.points,
        bitmap: q.bitmap,
        present: m,
        packing: q.packing,
        scale: scale_at(s, q.places.bds.start as usize),
    }
}

// The header of a message, with the stored bitmap of a number lent.
pub fn header(s: &[u8], number: u16, store: &[u8]) -> Result<Header, Refusal>
    ensures { result ≡ header_reply (header_of s.now (lent_as number store.now)) }
{
    let q = parse(s);
    judge(s, number, store, q)?;
    let m = present(s, store, q.places.bms, q.bitmap, q.points);
    refuse(12, length_bad(s, q.places.bds, m, q.packing))?;
    Ok(taken(s, q, m))
}
