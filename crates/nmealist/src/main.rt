// Lists the sentences of the NMEA 0183 log on standard input.
#![tactic(auto)]

use lister::print::print_listing;
use records::sentences::Sentences;
use std::io;

fn main(rt: HostRuntime) -> io::Result<()> {
    print_listing(&rt, Sentences)
}
