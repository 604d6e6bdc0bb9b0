// The three calls on a vector's fields and lists.
use crate::back::read_back;
use crate::fields::{Call, asked, decimal, form, lowered, number, scale};
use crate::{POINTS, Vector, line};
use vector_io::{Octets, fill, first, reply, say};

// The writer, and whether reading gives its parts back.
fn write(rt: &impl Print, vector: Vector<'_>, out: &mut [u8]) {
    let w = writer::write(
        vector.octets,
        form(vector.fields),
        scale(vector.fields),
        number(vector.fields),
        vector.store,
        vector.numbers,
        vector.marks,
        out,
    );
    line::written(rt, w, out);
    if let Ok(len) = w {
        read_back(rt, first(out, len as usize), vector);
    }
}

// The check's reply to a message.
fn check(rt: &impl Print, s: &[u8], vector: Vector<'_>, source: &[i32]) {
    let checked = checker::check(
        s,
        number(vector.fields),
        vector.store,
        source,
        vector.marks,
        decimal(vector.fields),
    );
    match checked {
        Ok(()) => say(rt, 0u32),
        Err(r) => reply(rt, r),
    }
}

// The packer; of what it wrote E and R, and the check of it against its own source.
fn pack(rt: &impl Print, vector: Vector<'_>, source: &[i32], out: &mut [u8]) {
    let w = packer::pack(
        vector.octets,
        form(vector.fields),
        number(vector.fields),
        vector.store,
        source,
        vector.marks,
        decimal(vector.fields),
        out,
    );
    line::written(rt, w, out);
    if let Ok(len) = w {
        let s = first(out, len as usize);
        if let Ok(h) = message::header(s, number(vector.fields), vector.store) {
            line::scale(rt, h.scale);
        }
        check(rt, s, vector, source);
    }
}

// The numbers of a source.
fn lower(from: &[u32], to: &mut [i32]) {
    for (to, from) in to.iter_mut().zip(from) {
        *to = lowered(*from);
    }
}

// A call on the numbers of a source, in room of their own.
fn with_source<F: FnOnce(&[i32])>(numbers: &[u32], call: F)
    requires callable { F.IsAlwaysCallable call }
{
    let mut room = [0i32; POINTS];
    lower(numbers, &mut room);
    call(first(&room, numbers.len()));
}

// The call that a vector asks for.
pub(crate) fn run(rt: &impl Print, vector: Vector<'_>, out: &mut [u8]) {
    fill::<Octets>(out);
    match asked(vector.fields) {
        Call::Write => write(rt, vector, out),
        Call::Check => with_source(vector.numbers, |source| {
            check(rt, vector.octets, vector, source)
        }),
        Call::Pack => with_source(vector.numbers, |source| pack(rt, vector, source, out)),
    }
}
