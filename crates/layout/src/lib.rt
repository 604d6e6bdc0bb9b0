// Where the sections of a message lie, read off its octets whatever they are, and refusals 1 to 6, with 20 to 23 of the
// section lengths in the place of 5. All total.
#![tactic(auto)]

ghost use Rattle.std.specs.Prelude.{◌<◌, ◌≡◌};
ghost use Rattle.rules.specs.Table.{any_of};
ghost use Rattle.rules.specs.Answers.{judged};
ghost use Rattle.rules.specs.Places.{pds_start, the_end_start, the_has_grid, the_has_bitmap, places_of, the_size_bad};
ghost use Rattle.rules.specs.Places.{the_grib_bad, the_edition_bad};
ghost use Rattle.rules.specs.Places.{total_faults};
ghost use Rattle.rules.specs.Walk.{section_rows, walk_rows};
ghost use Rattle.laws.specs.Groups.{layout_rows};
ghost use Rattle.layout.specs.Parts.{SectionRead, PlacesFit};

use octets::{four, octet, three};
use reply::{refuse, refuse_at};
use rules::bounds::{
    BDS_LEAST, BMS_LEAST, GDS_LEAST, MESSAGE_LEAST, MESSAGE_MOST, PDS_LEAST, PDS_MOST,
};
use rules::{Part, Places, Refusal};
use time::time_bad;

// 'GRIB' and '7777' as numbers of four octets.
pub const GRIB: u32 = 0x47524942;

pub const SEVENS: u32 = 0x37373737;

// Where the PDS starts, after the eight octets of the indicator.
pub const PDS_START: usize = 8;

// Where the end section starts.
fn end_start(s: &[u8]) -> usize
    ensures { result ≡ the_end_start s.now }
{
    if s.len() < 4 { 0 } else { s.len() - 4 }
}

// Whether the PDS announces a grid section.
pub fn has_grid(s: &[u8]) -> bool
    ensures { result ≡ the_has_grid s.now pds_start }
{
    128 <= octet(s, PDS_START, 8)
}

// Whether the PDS announces a bitmap section.
pub fn has_bitmap(s: &[u8]) -> bool
    ensures { result ≡ the_has_bitmap s.now pds_start }
{
    64 <= octet(s, PDS_START, 8) % 128
}

// The section at a place, by its own length; an absent one has length 0.
fn section_at(s: &[u8], there: bool, start: u32) -> Part
    ensures { SectionRead s.now there start result }
{
    if there {
        return Part {
            start,
            len: three(s, start as usize, 1),
        };
    }
    Part { start, len: 0 }
}

// One after another: PDS, GDS, BMS, BDS.
pub fn places(s: &[u8]) -> Places
    ensures { result ≡ places_of s.now }
{
    let pds = section_at(s, true, PDS_START as u32);
    let gds = section_at(s, has_grid(s), pds.start + pds.len);
    let bms = section_at(s, has_bitmap(s), gds.start + gds.len);
    let bds = section_at(s, true, bms.start + bms.len);
    Places { pds, gds, bms, bds }
}

// Refusal 1: a slice below 8 or above 262,144 octets.
fn size_bad(s: &[u8]) -> bool
    ensures { result ≡ the_size_bad s.now }
{
    (s.len() < MESSAGE_LEAST) | (MESSAGE_MOST < s.len())
}

// Refusal 2: the first four octets are not 'GRIB'.
fn grib_bad(s: &[u8]) -> bool
    ensures { result ≡ the_grib_bad s.now }
{
    four(s, 0, 1) != GRIB
}

// Refusal 3: the edition is not 1.
fn edition_bad(s: &[u8]) -> bool
    ensures { result ≡ the_edition_bad s.now }
{
    octet(s, 0, 8) != 1
}

// Refusal 4: the total length is not the slice's, or the last four octets are not '7777'.
fn total_bad(s: &[u8]) -> bool
    ensures { result ≡ any_of (total_faults s.now) }
{
    (three(s, 0, 5) as usize != s.len()) | (four(s, end_start(s), 1) != SEVENS)
}

// Refusals 20 to 22 of a section, by its number: its length's octets pass the end section's start, its length is odd,
// is out of its bounds, or it passes that start itself. An unannounced one has none.
#[tactic(auto, unfolding(rules::specs::Answers::judged, rules::specs::Walk::section_rows))]
fn section_judged(end: usize, section: u32, there: bool, out: bool, p: Part) -> Result<(), Refusal>
    requires { p.start < 4294967295 }
    ensures { result ≡ judged (section_rows end section there out p) }
{
    let place = p.start + 1;
    let cut = there & (end < p.start as usize + 3);
    refuse_at(22, section, place, cut)?;
    let odd = there & (p.len % 2 == 1);
    refuse_at(20, section, place, odd)?;
    refuse_at(21, section, place, there & out)?;
    let passes = there & (end < p.start as usize + p.len as usize);
    refuse_at(22, section, place, passes)
}

// Refusals 20 to 23: the walk from section to section.
#[tactic(auto, using(reply::proofs::Judged::judged_append), unfolding(rules::specs::Answers::judged, rules::specs::Walk::walk_rows),)]
fn walk(end: usize, grid: bool, bitmap: bool, p: Places) -> Result<(), Refusal>
    requires { PlacesFit p }
    ensures { result ≡ judged (walk_rows end grid bitmap p) }
{
    let out = (p.pds.len < PDS_LEAST) | (PDS_MOST < p.pds.len);
    section_judged(end, 1, true, out, p.pds)?;
    section_judged(end, 2, grid, p.gds.len < GDS_LEAST, p.gds)?;
    section_judged(end, 3, bitmap, p.bms.len < BMS_LEAST, p.bms)?;
    section_judged(end, 4, true, p.bds.len < BDS_LEAST, p.bds)?;
    let left = p.bds.start + p.bds.len;
    refuse_at(23, 5, left + 1, (left as usize) < end)
}

// Refusals 1 to 6 of a message, 20 to 23 in the place of 5.
#[tactic(auto, using(reply::proofs::Judged::judged_append), unfolding(rules::specs::Answers::judged, rules::specs::Walk::walk_of, laws::specs::Groups::layout_rows,),)]
pub fn layout(s: &[u8]) -> Result<(), Refusal>
    ensures { result ≡ judged (layout_rows s.now) }
{
    refuse(1, size_bad(s))?;
    refuse(2, grib_bad(s))?;
    refuse(3, edition_bad(s))?;
    refuse(4, total_bad(s))?;
    walk(end_start(s), has_grid(s), has_bitmap(s), places(s))?;
    refuse(6, time_bad(s, PDS_START))
}
