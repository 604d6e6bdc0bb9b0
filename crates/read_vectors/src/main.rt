// The reader on each vector file that an argument names, and a line for each: the name, the reply, what the message
// says, what became of the lent lists, and whether writing what was read gives the message back.
//
// A vector file has the head of a message and its lent bitmap (`load_message` of vector_io), octets 1-14; octets 15-17
// the room for values, 18-20 the room for marks; then the lent bitmap, the message's first octets and its last ones.
// Those in between are zero, so a long message can be a small file.
#![tactic(auto)]

mod again; // again.rt: what was read, written again
mod line; // line.rt: what is printed

use crate::again::write_again;
use crate::line::answer;
use program_io::{load, open_read, write_all};
use std::io::Read;
use std::rt::Files;
use std::{env, io};
use vector_io::{Marks, Message, Numbers, fill, load_message, size};

const HEAD: usize = 20;

// The room of this program's own lists, enough for its vectors: octets of a message, octets of a lent bitmap, points.
// The codec's bounds are others: where they grow, the stack that this program takes does not.
pub(crate) const MESSAGE: usize = 262145;

const STORE: usize = 8193;

const POINTS: usize = 65537;

// Lists filled, the message read into them, and the line: what the reader answered, and of an accepted message whether
// writing what was read gives it back.
fn judge(rt: &impl Print, message: Message<'_>, values: &mut [u32], marks: &mut [u8]) {
    fill::<Numbers>(values);
    fill::<Marks>(marks);
    let read = field::read(message.octets, message.number, message.store, values, marks);
    answer(rt, read, values, marks);
    if let Ok(h) = read {
        write_again(rt, message, h, values, marks);
    }
}

// The same on so many octets and elements of each list as a head says, where the rooms have them.
fn judge_parts(rt: &impl Print, head: &[u8], octets: &[u8], store: &[u8]) {
    let mut values = [0u32; POINTS];
    let mut marks = [0u8; POINTS];
    let number = octets::two(head, 0, 1);
    let Some(store) = store.get(..size(head, 3)) else {
        return;
    };
    let Some(octets) = octets.get(..size(head, 6)) else {
        return;
    };
    // a test rather than get_mut: by it the compiler sees how few places the loops over them have
    let (points, marked) = (size(head, 15), size(head, 18));
    if (POINTS < points) | (POINTS < marked) {
        return;
    }
    let values = &mut values[..points];
    let marks = &mut marks[..marked];
    judge(
        rt,
        Message {
            octets,
            number,
            store,
        },
        values,
        marks,
    );
}

// One vector: its head, and then what it announces.
fn run_vector(rt: &impl Print, file: &mut impl Read) {
    let mut head = [0u8; HEAD];
    let mut store = [0u8; STORE];
    let mut message = [0u8; MESSAGE];
    load(file, &mut head, 0, HEAD);
    load_message(file, &head, &mut store, &mut message);
    judge_parts(rt, &head, &message, &store);
}

// The vector file of that name, a line.
fn open_vector(rt: &(impl Files + Print + Eprint), path: &str) {
    write_all(rt, path.as_bytes());
    if let Some(mut file) = open_read(rt, path) {
        run_vector(rt, &mut file);
        write_all(rt, b"\n");
    }
}

// Every vector file that an argument names.
fn main(rt: HostRuntime) -> io::Result<()> {
    for path in env::args(&rt)?.skip(1) {
        open_vector(&rt, path.as_str());
    }
    Ok(())
}
