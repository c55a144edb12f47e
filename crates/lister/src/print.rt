// Reads standard input and prints its listing.
use crate::{ListError, Listed, MOST, end_line, list, row_line};
use records::kind::RecordKind;
use std::alloc::AllocError;
use std::io;
use std::io::Read;

// All of standard input, or enough of it to see that it is too long. By parts, and not by the library's
// `read_to_end`: the end of the input is a test here, and an edit that takes it away has to be refused.
pub(crate) fn read_input(rt: &HostRuntime) -> io::Result<Vec<u8>> {
    let mut stdin = rt.stdin();
    let mut all = Vec::new(rt.alloc());
    let mut buffer = [0u8; 4096];
    while all.len() <= MOST {
        let n = stdin.read(&mut buffer)?;
        if n == 0 {
            return Ok(all);
        }
        all.extend_from_slice(&buffer[0..n])?;
    }
    Ok(all)
}

fn print_rows(rt: &HostRuntime, listed: &Listed) -> io::Result<()> {
    for row in listed.rows.iter() {
        rt.println(row_line(rt.alloc(), *row)?)?;
    }
    rt.println(end_line(rt.alloc(), listed.counts)?)
}

// A line for each row and a closing line, or the line `too long`.
pub(crate) fn print_listed(rt: &HostRuntime, listed: Result<Listed, ListError>) -> io::Result<()> {
    match listed {
        Ok(listed) => print_rows(rt, &listed),
        Err(ListError::TooLong) => println!(rt; "too long"),
        Err(ListError::Memory) => Err(AllocError.into()),
    }
}

// Prints the listing of the bytes.
pub fn print_listing<K: RecordKind + Drop>(rt: &HostRuntime, kind: K) -> io::Result<()> {
    let bytes = read_input(rt)?;
    print_listed(rt, list(rt.alloc(), kind, &bytes))
}
