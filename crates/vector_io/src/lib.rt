// What the three programs over vectors share: the parts of a vector in a file, what a lent list holds before a call and
// whether it still holds it, and how an answer is printed.
#![tactic(auto)]

mod file; // file.rt: the parts of a vector in a file
mod line; // line.rt: what is printed
mod lists; // lists.rt: lent lists before and after a call

pub use file::{Message, load_message, next_size, print_name, size};
pub use line::{hex, reply, say};
pub use lists::{Element, Lent, Marks, Numbers, Octets, Own, added, fill, first, kept};
