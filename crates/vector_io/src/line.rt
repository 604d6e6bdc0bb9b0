// What is printed of an answer, one space before each thing.
use program_io::{write_all, write_hex};
use rules::Refusal;
use std::fmt::Display;

// A word, or a number in decimal digits.
pub fn say(rt: &impl Print, what: impl Display + Drop) {
    let _ = print!(rt; " {what}");
}

// A word of 32 bits as eight hexadecimal digits.
pub fn hex(rt: &impl Print, n: u32) {
    write_all(rt, b" ");
    write_hex(rt, n);
}

// A reply's number, and the section and the place where it tells them.
pub fn reply(rt: &impl Print, r: Refusal) {
    say(rt, r.number);
    if r.section != 0 || r.place != 0 {
        say(rt, r.section);
        say(rt, r.place);
    }
}
