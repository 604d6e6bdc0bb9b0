// The value or absence at one place of a message's chart, by an index of the ones before each group of 256 grid points,
// and the filling of that index. All total; beyond the message's own judgement a place takes the octets of its group
// and one value.
#![tactic(auto)]

ghost use Rattle.std.specs.Prelude.{◌≡◌, cond, ◌++◌, ◌*◌, ◌^◌, ◌<◌, ◌≤◌, eqb, length, drop};
ghost use Rattle.bits.specs.Bits.{bits_in, count};
ghost use Rattle.bits.specs.Tables.{tab};
ghost use Rattle.rules.specs.Table.{any_of};
ghost use Rattle.rules.specs.Answers.{entries_reply};
ghost use Rattle.rules.specs.Bitmap.{lent_as};
ghost use Rattle.rules.specs.Cursor.{the_groups_for, the_group_size, group_of, ones_before, ones_in, ones_up_to};
ghost use Rattle.rules.specs.Cursor.{entry_of};
ghost use Rattle.rules.specs.Cursor.{the_next_entry, index_faults, index_of, the_index_after, cursor_of};
ghost use Rattle.bitmap.specs.Held.{bits_from, held};
ghost use Rattle.cursor.specs.Looked.{looked_at};

use bitreader::{take, value_place};
use chart::{point_at, shape_of};
use message::header;
use reply::{refusal, refuse};
use rules::bounds::BMS_HEAD;
use rules::{Bitmap, GridPoint, Refusal, Spot};
use runs::{bit, ones, ones_256, ones_few};

// What a group's bits say of one of its points: the ones among all, the ones before the point, and its own bit.
#[derive(Clone, Copy)]
struct Group {
    all: u32,
    before: u32,
    here: u32,
}

// How many groups n points make.
fn groups_for(n: u32) -> usize
    ensures { result ≡ the_groups_for n }
{
    (n as usize + 255) / 256
}

// How many of n points the group has that point i is in.
fn group_size(n: u32, i: u32) -> u32
    requires { i < n }
    ensures { result ≡ the_group_size n (group_of i) }
{
    let left = n - i / 256 * 256;
    if 256 < left {
        return 256;
    }
    left
}

// The ones of a group's points, whose bits start with octet p: of a whole group those of 32 octets.
fn group_ones(s: &[u8], p: usize, size: u32) -> u32
    ensures { result ≡ count (bits_in 8 s.now) (p * 8) size }
{
    if size == 256 {
        return ones_256(s, p);
    }
    ones(s, p, size)
}

// The group of point i of n, by bits from octet p on.
fn group_at(s: &[u8], p: usize, n: u32, i: u32) -> Group
    requires { (i < n) × (p < 2 ^ 62) }
    ensures { (result.all ≡ ones_in (bits_from s.now p) n (group_of i))
        × (result.before ≡ ones_up_to (bits_from s.now p) i)
        × (result.here ≡ bits_from s.now p i) }
{
    let start = p + (i / 256) as usize * 32;
    Group {
        all: group_ones(s, start, group_size(n, i)),
        before: ones_few(s, start, i % 256),
        here: bit(s, p, i),
    }
}

// The group of point i of n, by a bitmap whose bits, where the message carries them, start at octet p of it.
fn group_by(bitmap: Bitmap, s: &[u8], store: &[u8], p: usize, n: u32, i: u32) -> Group
    requires { (i < n) × (p < 2 ^ 62) }
    ensures { (result.all ≡ ones_in (held bitmap s.now store.now p) n (group_of i))
        × (result.before ≡ ones_up_to (held bitmap s.now store.now p) i)
        × (result.here ≡ held bitmap s.now store.now p i) }
{
    match bitmap {
        Bitmap::Without => Group {
            all: group_size(n, i),
            before: i % 256,
            here: 1,
        },
        Bitmap::Carried => group_at(s, p, n, i),
        Bitmap::Stored(_) => group_at(store, 0, n, i),
    }
}

// A group's entry; past the end there is none, and it reads 0.
fn entry(index: &[u32], g: usize) -> u32
    ensures { result ≡ entry_of index.now g }
{
    if g < index.len() {
        return index[g];
    }
    0
}

// The entry after a group's, and m after the last of n points' groups.
fn next_entry(index: &[u32], n: u32, m: u32, g: u32) -> u32
    ensures { result ≡ the_next_entry index.now n m g }
{
    let next = g as usize + 1;
    if next < groups_for(n) {
        return entry(index, next);
    }
    m
}

// Refusal 25, of group g with so many ones, of n points, m of which are present. The sum is exact.
fn index_bad(index: &[u32], n: u32, m: u32, g: u32, inside: u32) -> bool
    ensures { result ≡ any_of (index_faults index.now n m g inside) }
{
    let sum = entry(index, g as usize) as u64 + inside as u64;
    (index.len() < groups_for(n)) | (sum != next_entry(index, n, m, g) as u64) | ((m as u64) < sum)
}

// What point i of n has, m of which are present, by the bits of a bitmap and values of so many bits in the data section
// that starts at an octet.
fn look(
    s: &[u8],
    store: &[u8],
    bitmap: Bitmap,
    p: usize,
    start: u32,
    bits: u8,
    n: u32,
    m: u32,
    index: &[u32],
    i: u32,
) -> Result<Option<u32>, Refusal>
    requires { (i < n) × (p < 2 ^ 62) }
    ensures { result ≡
        looked_at s.now (held bitmap s.now store.now p) start bits n m
        index.now i }
{
    let group = group_by(bitmap, s, store, p, n, i);
    let g = i / 256;
    if index_bad(index, n, m, g, group.all) {
        return Err(refusal(25));
    }
    if group.here == 1 {
        let k = entry(index, g as usize) + group.before;
        let at = value_place(start, bits, k);
        return Ok(Some(take(s, at, bits).value));
    }
    Ok(None)
}

// What a place of a message's chart has, by an index.
pub fn under(
    s: &[u8],
    number: u16,
    store: &[u8],
    index: &[u32],
    c: Spot,
) -> Result<Option<u32>, Refusal>
    ensures { result ≡ cursor_of s.now (lent_as number store.now) index.now c }
{
    let h = header(s, number, store)?;
    let bitmap = h.bitmap;
    let at = point_at(shape_of(h.grid), c);
    match at {
        None => Err(refusal(24)),
        Some(k) => look(
            s,
            store,
            bitmap,
            h.places.bms.start as usize + BMS_HEAD as usize,
            h.places.bds.start,
            h.packing.bits,
            h.points,
            h.present,
            index,
            k.0,
        ),
    }
}

// The entries where every point is present.
fn fill_even(index: &mut [u32], groups: usize)
    requires { (groups ≤ length index.old) × (groups < 2 ^ 24) }
    ensures { index.new ≡ tab (λ g. g * 256) groups ++ drop groups index.old }
{
    for g in 0..groups {
        index[g] = g as u32 * 256;
    }
}

// The entries by bits from octet p on.
fn fill_counted(s: &[u8], p: usize, index: &mut [u32], groups: usize)
    requires { (p < 2 ^ 62) × (groups ≤ length index.old) × (groups < 2 ^ 24) }
    ensures { index.new ≡
        tab (ones_before (bits_from s.now p)) groups ++ drop groups index.old }
{
    let mut before: u32 = 0;
    for g in 0..groups {
        index[g] = before;
        before += ones_256(s, p + g * 32);
    }
}

// The entries by a bitmap.
fn fill_by(bitmap: Bitmap, s: &[u8], store: &[u8], p: usize, index: &mut [u32], groups: usize)
    requires { (p < 2 ^ 62) × (groups ≤ length index.old) × (groups < 2 ^ 24) }
    ensures { index.new ≡
        tab (ones_before (held bitmap s.now store.now p)) groups
        ++ drop groups index.old }
{
    match bitmap {
        Bitmap::Without => fill_even(index, groups),
        Bitmap::Carried => fill_counted(s, p, index, groups),
        Bitmap::Stored(_) => fill_counted(store, 0, index, groups),
    }
}

// Fills the front of a lent index for a message: how many entries it took.
pub fn fill(s: &[u8], number: u16, store: &[u8], index: &mut [u32]) -> Result<u32, Refusal>
    ensures value { result ≡
        entries_reply (index_of s.now (lent_as number store.now) index.old) }
    ensures index_after { index.new ≡
        the_index_after s.now (lent_as number store.now) index.old }
{
    let h = header(s, number, store)?;
    let groups = groups_for(h.points);
    refuse(14, index.len() < groups)?;
    let bitmap = h.bitmap;
    fill_by(
        bitmap,
        s,
        store,
        h.places.bms.start as usize + BMS_HEAD as usize,
        index,
        groups,
    );
    Ok(groups as u32)
}
