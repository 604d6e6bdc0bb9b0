// Puts into lent octets: a number of whole octets, a number at any bit place, and a list of numbers packed. Every
// public function is total: a put that does not fit, by room or by its number, changes nothing and answers false.
#![tactic(auto)]

mod fields; // fields.rt: a number at any bit place
mod packing; // packing.rt: a list of numbers into octets
mod whole; // whole.rt: a number of whole octets
mod words; // words.rt: what the others are made of

pub use fields::put_bits;
pub use packing::pack;
pub use whole::put_number;
