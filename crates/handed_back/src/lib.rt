// Sections and the bitmap in force, handed back without copying as parts of what the caller lends. All total.
#![tactic(auto)]

ghost use Rattle.std.specs.Prelude.{◌≡◌, ◌+◌, ◌<◌, ◌≤◌, length, get_or};
ghost use Rattle.rules.specs.Places.{IsPart, no_part, after};
ghost use Rattle.rules.specs.Bitmap.{IsInForce, lent_as};
ghost use Rattle.rules.specs.Reading.{section_of, bitmap_of};
ghost use Rattle.handed_back.specs.Force.{force_of};
ghost use Rattle.handed_back.specs.Sections.{all_sections};

use message::header;
use rules::{Bitmap, Part, Places};

// The bitmap in force: a part of the store, or else of the message.
#[derive(Clone, Copy)]
pub struct Force {
    pub stored: bool,
    pub part: Part,
}

// n octets from place a on.
fn cut(s: &[u8], a: usize, n: usize) -> &[u8]
    requires { a + n ≤ length s.now }
    ensures { IsPart result s.entry (record { start = a; len = n }) }
{
    let e = a + n;
    &s[a..e]
}

// Section k of those that lie at p.
fn nth(p: Places, k: u32) -> Part
    requires { after p.bds < 4294967296 }
    ensures { result ≡ get_or (all_sections p) k no_part }
{
    if k == 0 {
        return Part { start: 0, len: 8 };
    }
    if k == 1 {
        return p.pds;
    }
    if k == 2 {
        return p.gds;
    }
    if k == 3 {
        return p.bms;
    }
    if k == 4 {
        return p.bds;
    }
    if k == 5 {
        return Part {
            start: p.bds.start + p.bds.len,
            len: 4,
        };
    }
    Part { start: 0, len: 0 }
}

// Which part of a message its section k is; the empty part at its start where it is refused or has none.
pub fn section_part(s: &[u8], number: u16, store: &[u8], k: u32) -> Part
    ensures { result ≡ section_of s.now (lent_as number store.now) k }
{
    match header(s, number, store) {
        Err(_) => Part { start: 0, len: 0 },
        Ok(h) => {
            let p = nth(h.places, k);
            if p.len == 0 {
                return Part { start: 0, len: 0 };
            }
            p
        }
    }
}

// Section k of a message, that part of it.
pub fn section<'a>(s: &'a [u8], number: u16, store: &[u8], k: u32) -> &'a [u8]
    ensures { IsPart result s.entry (section_of s.now (lent_as number store.now) k) }
{
    let p = section_part(s, number, store, k);
    cut(s, p.start as usize, p.len as usize)
}

// Which part of the message or of the store the bitmap in force is; the empty part at the message's start where there
// is none.
pub fn force_part(s: &[u8], number: u16, store: &[u8]) -> Force
    ensures { result ≡ force_of (bitmap_of s.now (lent_as number store.now)) }
{
    let none = Force {
        stored: false,
        part: Part { start: 0, len: 0 },
    };
    match header(s, number, store) {
        Err(_) => none,
        Ok(h) => {
            let len = ((h.points as usize + 7) / 8) as u32;
            let bitmap = h.bitmap;
            match bitmap {
                Bitmap::Without => none,
                Bitmap::Carried => Force {
                    stored: false,
                    part: Part {
                        start: h.places.bms.start + 6,
                        len,
                    },
                },
                Bitmap::Stored(_) => Force {
                    stored: true,
                    part: Part { start: 0, len },
                },
            }
        }
    }
}

// The bitmap in force, that part of the message or of the store.
pub fn in_force<'a>(s: &'a [u8], number: u16, store: &'a [u8]) -> &'a [u8]
    ensures { IsInForce result s.entry store.entry
        (bitmap_of s.now (lent_as number store.now)) }
{
    let f = force_part(s, number, store);
    let p = f.part;
    if f.stored {
        return cut(store, p.start as usize, p.len as usize);
    }
    cut(s, p.start as usize, p.len as usize)
}
