// A list in a file: in three octets how many octets its runs have, then the runs. A run has in three octets how many
// elements, then the element.
ghost use Rattle.std.specs.Prelude.{◌<◌, ◌≤◌, length};

use program_io::load;
use std::io::Read;
use vector_io::{first, next_size, size};

// Octets that the runs of one list may have.
const RUNS: usize = 7168;

// Puts an element into n places from one on, as far as the room has them: the place after them.
fn repeat<T: Copy>(room: &mut [T], at: usize, n: usize, x: T) -> usize
    requires { at ≤ length room.old }
    ensures { result ≤ length room.new }
{
    let end = at + n.min(room.len() - at);
    for i in at..end {
        room[i] = x;
    }
    end
}

// Puts a list into the room, whose runs have so many octets each: how many elements it has.
fn load_list<T: Copy, F: Fn(&[u8]) -> T>(
    file: &mut impl Read,
    room: &mut [T],
    long: usize,
    element: F,
) -> usize
    requires long { 0 < long }
    requires callable { F.IsAlwaysCallable element }
{
    let mut runs = [0u8; RUNS];
    let n = next_size(file);
    load(file, &mut runs, 0, n);
    let mut at: usize = 0;
    for run in first(&runs, n).chunks(long) {
        at = repeat(room, at, size(run, 1), element(run));
    }
    at
}

// Puts a list of octets into the room: how many it has.
pub(crate) fn load_octets(file: &mut impl Read, room: &mut [u8]) -> usize {
    load_list(file, room, 4, |run| octets::octet(run, 0, 4))
}

// Puts a list of numbers of four octets each into the room: how many it has.
pub(crate) fn load_numbers(file: &mut impl Read, room: &mut [u32]) -> usize {
    load_list(file, room, 7, |run| octets::four(run, 0, 4))
}
