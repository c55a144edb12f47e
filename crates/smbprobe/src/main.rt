// Answers commands about a recording, its index, and bodies: one command on each line of standard
// input, one answer line each. A line that is no command is answered `error`.
//   plain HEX                                  a recording of these bytes
//   extents HEX PLACE:LENGTH,..                a recording of rows in this image
//   stretch | mark FIRST COUNT                 let stretches be lost; one is
//   check | length | cell P                    what the store answers
//   open tuple|sentence ROWS                   an index with a table of so many rows
//   test P | list                              the record at a place; the whole listing
//   scan BUDGET | clear B | settle ROW         calls on the index
//   fetch ROW BUFFER | inspect ROW BUFFER | save BUFFER
//   state | rows                               the place, the cells skipped, the rows held
//   setrow N PLACE LENGTH TAG TYPE ID TIME     puts a row into the table
//   cut N                                      keeps the first N rows of the table
//   judge TYPE HEX 0|1                         whether the body is sound, without or with a counter
//   parts TYPE HEX 0|1                         where its parts begin and end
//   field TYPE HEX N                           a field of the body
//   set TYPE HEX N number|signed|run VALUE     sets it, and shows the body
//   counts HEX | row HEX N                     what an index file says
//   newout ROOM | put TYPE ID DATATYPE TIME HEX | out    tuples written to an output, whatever the room
//   opent HEX                                  a tuple taken apart
// HEX is `-` for no bytes. BUFFER is the length of a buffer, which the answer shows last.
// An index is closed by the next line that sets up a recording, writes a tuple or opens another.
#![tactic(auto)]

mod answer;
mod body;
mod console;
mod digits;
mod field;
mod file;
mod output;
mod session;
mod setup;
mod store;
mod words;

use console::Console;
use setup::Setup;
use std::io;

fn main(rt: HostRuntime) -> io::Result<()> {
    let mut console = Console::new(&rt)?;
    let mut setup = Setup::new(rt.alloc());
    let mut back = None;
    // counted, since no loop of this project may run forever
    for _ in 0..u64::MAX {
        let next = match back {
            Some(line) => Some(line),
            None => console.read()?,
        };
        let Some(line) = next else {
            return Ok(());
        };
        back = setup.follow(&mut console, line.as_str())?;
    }
    Ok(())
}
