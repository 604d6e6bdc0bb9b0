// The listing program: reads one message from standard input and writes its listing.
#![tactic(auto)]

// The listing of the message on standard input.
fn main(rt: HostRuntime) {
    printer::print_from(&rt, &mut rt.reader());
}
