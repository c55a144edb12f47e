// Lists the tuples of the SMB recording on standard input.
#![tactic(auto)]

use lister::print::print_listing;
use records::tuples::Tuples;
use std::io;

fn main(rt: HostRuntime) -> io::Result<()> {
    print_listing(&rt, Tuples)
}
