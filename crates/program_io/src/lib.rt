// What the programs share of reading and writing. A reader that fails is one that has ended, and what cannot be
// written is left out, so that a program says all that it still can.
#![tactic(auto)]

ghost use Rattle.std.specs.Prelude.{◌≡◌, ◌≤◌, length, take, drop};
ghost use Rattle.std.specs.Io.KnownBytes.{Consumes};

use std::fs::File;
use std::io::Read;
use std::rt::Files;

// Reads until the room is full, the input ends or a read fails: how many octets stand first in the room, those that
// the reader gave.
pub fn read_full<R: Read>(from: &mut R, room: &mut [u8]) -> usize
    ensures within { result ≤ length room.new }
    ensures octets { Consumes (R.remaining from.old) (R.remaining from.new) (take result room.new) }
{
    let mut done: usize = 0;
    while done < room.len() {
        match from.read(&mut room[done..]) {
            Ok(0) => return done,
            Ok(n) => done += n,
            Err(_) => return done,
        }
    }
    done
}

// Reads on into the places of the room from one up to another, where the room has them. The other places stay.
pub fn load(from: &mut impl Read, room: &mut [u8], start: usize, end: usize)
    ensures before { take start room.new ≡ take start room.old }
    ensures after { drop end room.new ≡ drop end room.old }
{
    if start <= end && end <= room.len() {
        read_full(from, &mut room[start..end]);
    }
}

// The file of that name, opened for reading. Where it cannot be, its name and why are written to the standard error.
pub fn open_read<R: Files + Eprint>(rt: &R, path: &str) -> Option<R::File> {
    match File::open(rt, path) {
        Ok(file) => Some(file),
        Err(e) => {
            let _ = eprintln!(rt; "{path}: {e}");
            None
        }
    }
}

// Writes octets.
pub fn write_all(rt: &impl Print, text: &[u8]) {
    let _ = rt.write_all(text);
}

// Writes a number in decimal digits.
pub fn write_decimal(rt: &impl Print, n: u64) {
    let _ = rt.print(n);
}

// Writes a word of 32 bits as eight hexadecimal digits.
pub fn write_hex(rt: &impl Print, n: u32) {
    let _ = print!(rt; "{n:08x}");
}
