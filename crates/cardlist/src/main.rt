// Lists the tuples of a recording that lies in the card image on standard input.
#![tactic(auto)]

use lister::card::print_card;
use std::io;

fn main(rt: HostRuntime) -> io::Result<()> {
    print_card(&rt)
}
