// An index filled, or a place of the chart asked for, on each vector of the files that arguments name, and a line for
// each: the name, then what line.rt says.
//
// A file has octets 1-3 how many messages it has, and the messages, each with its vectors. A message has the head of a
// message and its lent bitmap (`load_message` of vector_io), 14 octets; then the lent bitmap, the message's first
// octets and its last ones, those in between being zero; and in three octets how many vectors it has. A vector has its
// name's length in one octet, its name, and 12 octets of fields: 1 the call, 0 to fill and to ask at every place of the
// chart, 1 to ask, 2 to fill alone; 2-5 the row; 6-9 the column; 10-12 how many entries the lent index has. To ask, the
// entries follow, four octets each.
#![tactic(auto)]

mod beside; // beside.rt: the cursor beside reading, at every place of the chart
mod line; // line.rt: what is printed

use crate::beside::{compare, under};
use program_io::{load, open_read, write_all};
use rules::Spot;
use std::io::Read;
use std::rt::Files;
use std::{env, io};
use vector_io::{Message, Numbers, fill, first, load_message, next_size, print_name, size};

const HEAD: usize = 14;

const FIELDS: usize = 12;

// The room of this program's own lists, enough for its vectors: octets of a message, octets of a lent bitmap, points,
// entries of an index and their octets. The codec's bounds are others: where they grow, the stack that this program
// takes does not.
const MESSAGE: usize = 262145;

const STORE: usize = 8193;

pub(crate) const POINTS: usize = 65536;

const ENTRIES: usize = 320;

const OCTETS: usize = 1280;

// An index of so many entries filled: what filling answered, and where all places are asked for, the cursor beside
// reading.
fn fill_index(rt: &impl Print, message: Message<'_>, all: bool, n: usize) {
    let mut room = [0u32; ENTRIES];
    if let Some(index) = room.get_mut(..n) {
        fill::<Numbers>(index);
        let r = cursor::fill(message.octets, message.number, message.store, index);
        line::filled(rt, r, index);
        if r.is_ok() && all {
            compare(rt, message, index);
        }
    }
}

// Reads so many entries of the file on into an index.
fn load_entries(file: &mut impl Read, index: &mut [u32], n: usize) {
    let mut room = [0u8; OCTETS];
    if n <= ENTRIES {
        load(file, &mut room, 0, n * 4);
    }
    for (entry, four) in index.iter_mut().zip(room.chunks(4)) {
        *entry = octets::four(four, 0, 1);
    }
}

// A place asked for, by an index of so many entries in the file.
fn ask(rt: &impl Print, file: &mut impl Read, message: Message<'_>, at: Spot, n: usize) {
    let mut index = [0u32; ENTRIES];
    load_entries(file, &mut index, n);
    line::under(rt, under(message, first(&index, n), at));
}

// The place that a vector asks for.
fn place(fields: &[u8]) -> Spot {
    Spot {
        row: octets::four(fields, 0, 2),
        column: octets::four(fields, 0, 6),
    }
}

// The call that a vector asks for.
fn run(rt: &impl Print, file: &mut impl Read, message: Message<'_>, fields: &[u8]) {
    let n = size(fields, 10);
    match octets::octet(fields, 0, 1) {
        0 => fill_index(rt, message, true, n),
        1 => ask(rt, file, message, place(fields), n),
        _ => fill_index(rt, message, false, n),
    }
}

// One vector, a line.
fn run_vector(rt: &impl Print, file: &mut impl Read, message: Message<'_>) {
    let mut fields = [0u8; FIELDS];
    print_name(rt, file);
    load(file, &mut fields, 0, FIELDS);
    run(rt, file, message, &fields);
    write_all(rt, b"\n");
}

// Every vector of a message.
fn run_vectors(rt: &impl Print, file: &mut impl Read, message: Message<'_>) {
    for _ in 0..next_size(file) {
        run_vector(rt, file, message);
    }
}

// One message: its head, the lent bitmap, its octets, and its vectors.
fn run_message(rt: &impl Print, file: &mut impl Read) {
    let mut head = [0u8; HEAD];
    let mut store = [0u8; STORE];
    let mut octets = [0u8; MESSAGE];
    load(file, &mut head, 0, HEAD);
    load_message(file, &head, &mut store, &mut octets);
    run_vectors(
        rt,
        file,
        Message {
            octets: first(&octets, size(&head, 6)),
            number: octets::two(&head, 0, 1),
            store: first(&store, size(&head, 3)),
        },
    );
}

// Every message of a file.
fn run_file(rt: &impl Print, file: &mut impl Read) {
    for _ in 0..next_size(file) {
        run_message(rt, file);
    }
}

// The file of that name.
fn open_file(rt: &(impl Files + Print + Eprint), path: &str) {
    if let Some(mut file) = open_read(rt, path) {
        run_file(rt, &mut file);
    }
}

// Every file that an argument names.
fn main(rt: HostRuntime) -> io::Result<()> {
    for path in env::args(&rt)?.skip(1) {
        open_file(&rt, path.as_str());
    }
    Ok(())
}
