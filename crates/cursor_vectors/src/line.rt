// What is printed, one space before each thing.
//
// Filling: `fill`; its reply, and a section and a place where it tells them; how many entries it took; `kept` where the
// other ones are as they were, on a refusal all; and of a message that is taken the entries. Asking: `under`; its
// reply, and a section and a place where it tells them; and where it is not refused `absent`, or `value` and the value.
use rules::Refusal;
use vector_io::{Numbers, first, kept, reply, say};

// Whether the entries from n on are as they were.
fn after(rt: &impl Print, index: &[u32], n: usize) {
    let same = kept::<Numbers>(index, n);
    say(rt, if same { "kept" } else { "changed" });
}

// What filling answered, and whether it kept the entries that it did not take; of a message that is taken the entries.
pub(crate) fn filled(rt: &impl Print, filled: Result<u32, Refusal>, index: &[u32]) {
    say(rt, "fill");
    match filled {
        Err(r) => {
            reply(rt, r);
            say(rt, 0u32);
            after(rt, index, 0);
        }
        Ok(entries) => {
            let n = entries as usize;
            say(rt, 0u32);
            say(rt, entries);
            after(rt, index, n);
            for entry in first(index, n) {
                say(rt, *entry);
            }
        }
    }
}

// What asking answered.
pub(crate) fn under(rt: &impl Print, u: Result<Option<u32>, Refusal>) {
    say(rt, "under");
    match u {
        Err(r) => reply(rt, r),
        Ok(None) => say(rt, "0 absent"),
        Ok(Some(x)) => {
            say(rt, "0 value");
            say(rt, x);
        }
    }
}
