// A message read from a reader, its listing written.
#![tactic(auto)]

ghost use Rattle.std.specs.Prelude.{◌≤◌};

use listing::{TEXT_ROOM, list};
use program_io::{read_full, write_all};
use rules::bounds::LISTED_MOST;
use std::io::Read;

// One octet more than a message may have, so that a longer input is seen to be longer.
const INPUT: usize = LISTED_MOST + 1;

// Answers how many octets came. No contract can say what is written: the work is `list`'s.
pub fn print_from(rt: &impl Print, from: &mut impl Read) -> usize
    ensures { result ≤ 32769 }
{
    let mut input = [0u8; INPUT];
    let mut text = [0u8; TEXT_ROOM];
    let n = read_full(from, &mut input);
    let len = list(&input[..n], &mut text) as usize;
    write_all(rt, &text[..len]);
    n
}
