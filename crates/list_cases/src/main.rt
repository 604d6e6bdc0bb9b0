// The listing program's work on each file that an argument names: a line with the name, then the listing.
#![tactic(auto)]

use program_io::open_read;
use std::rt::Files;
use std::{env, io};

// The listing of the file of that name, under its name.
fn print_case(rt: &(impl Files + Print + Eprint), path: &str) {
    let _ = println!(rt; "== {path}");
    if let Some(mut file) = open_read(rt, path) {
        printer::print_from(rt, &mut file);
    }
}

// The listing of each file that an argument names.
fn main(rt: HostRuntime) -> io::Result<()> {
    for path in env::args(&rt)?.skip(1) {
        print_case(&rt, path.as_str());
    }
    Ok(())
}
