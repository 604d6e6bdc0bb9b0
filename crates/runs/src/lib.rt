// Runs of bits read out of octets: one number of any width at any place, many one after another, and counts of ones.
// Every public function is total: an octet past the end reads 0, and what does not fit a lent list changes nothing.
#![tactic(auto)]

mod counting; // counting.rt: a bit, and ones among bits
mod fields; // fields.rt: a number of any width at any bit place
mod unpacking; // unpacking.rt: a list of numbers out of octets
mod words; // words.rt: four and eight octets as one number

pub use counting::{bit, ones, ones_256, ones_few};
pub use fields::fetch;
pub use unpacking::unpack;
