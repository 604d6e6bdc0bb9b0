// The writer, the check or the packer on each vector of the files that arguments name, and a line for each: the name,
// then what line.rt says.
//
// A file has octets 1-3 how many vectors it has, and the vectors. A vector has its name's length in one octet, its
// name, 83 octets of fields (fields.rt) and four lists (lists.rt): the octets of the PDS or the message, the lent
// bitmap's, the values or the source's numbers, the marks.
#![tactic(auto)]

mod back; // back.rt: whether reading gives back what was written
mod calls; // calls.rt: the three calls
mod fields; // fields.rt: a vector's fields
mod line; // line.rt: what is printed
mod lists; // lists.rt: a vector's lists

use crate::calls::run;
use crate::fields::{FIELDS, room};
use crate::lists::{load_numbers, load_octets};
use program_io::{load, open_read, write_all};
use std::io::Read;
use std::rt::Files;
use std::{env, io};
use vector_io::{first, next_size, print_name};

// The room of this program's own lists, enough for its vectors: octets of a message, octets of a lent bitmap, points.
// The codec's bounds are others: where they grow, the stack that this program takes does not.
const MESSAGE: usize = 262145;

const STORE: usize = 8193;

pub(crate) const POINTS: usize = 65537;

// A vector: its fields, and its lists in the order of the file.
#[derive(Clone, Copy)]
pub(crate) struct Vector<'a> {
    pub(crate) fields: &'a [u8],
    pub(crate) octets: &'a [u8],
    pub(crate) store: &'a [u8],
    pub(crate) numbers: &'a [u32],
    pub(crate) marks: &'a [u8],
}

// The call with so many octets of output lent as the vector says, where there are so many.
fn run_output(rt: &impl Print, vector: Vector<'_>) {
    let mut out = [0u8; MESSAGE];
    if let Some(lent) = out.get_mut(..room(vector.fields)) {
        run(rt, vector, lent);
    }
}

// A vector's lists, read one after another, each into room of its own, and on.
fn run_lists(rt: &impl Print, file: &mut impl Read, fields: &[u8]) {
    let mut octets = [0u8; MESSAGE];
    let mut store = [0u8; STORE];
    let mut numbers = [0u32; POINTS];
    let mut marks = [0u8; POINTS];
    let len = load_octets(file, &mut octets);
    let held = load_octets(file, &mut store);
    let n = load_numbers(file, &mut numbers);
    let m = load_octets(file, &mut marks);
    run_output(
        rt,
        Vector {
            fields,
            octets: first(&octets, len),
            store: first(&store, held),
            numbers: first(&numbers, n),
            marks: first(&marks, m),
        },
    );
}

// One vector, a line.
fn run_vector(rt: &impl Print, file: &mut impl Read) {
    let mut fields = [0u8; FIELDS];
    print_name(rt, file);
    load(file, &mut fields, 0, FIELDS);
    run_lists(rt, file, &fields);
    write_all(rt, b"\n");
}

// Every vector of a file.
fn run_file(rt: &impl Print, file: &mut impl Read) {
    for _ in 0..next_size(file) {
        run_vector(rt, file);
    }
}

// The file of that name.
fn open_file(rt: &(impl Files + Print + Eprint), path: &str) {
    if let Some(mut file) = open_read(rt, path) {
        run_file(rt, &mut file);
    }
}

// Every file that an argument names.
fn main(rt: HostRuntime) -> io::Result<()> {
    for path in env::args(&rt)?.skip(1) {
        open_file(&rt, path.as_str());
    }
    Ok(())
}
