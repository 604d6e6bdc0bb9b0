// Numbers in octets, high octet first, and signed fields. Every function is total: an octet past the end reads 0.
#![tactic(auto)]

mod reading; // reading.rt: all of it

pub use reading::{at, four, octet, offset, plain, signed_three, signed_two, three, two};
