// Reads a card image from standard input, and prints the tuples of the recording that words name in it.
use crate::print::{print_listed, read_input};
use crate::words::Word;
use crate::{ListError, MOST, list_store, refusal_line};
use recording::Store;
use recording::extents::{Extent, Extents};
use recording::stretches::{Stretch, Stretches};
use records::tuples::Tuples;
use refusals::Refusal;
use std::{env, io};

// What the words name: the rows of the recording, and the stretches of it that are lost.
#[derive(Drop)]
struct Named {
    rows: Vec<Extent>,
    lost: Vec<Stretch>,
}

impl Named {
    fn add(&mut self, word: Word) -> io::Result<()> {
        match word {
            Word::Extent(row) => self.rows.push(row)?,
            Word::Lost(stretch) => self.lost.push(stretch)?,
        }
        Ok(())
    }
}

fn print_refusal<R: Refusal>(rt: &HostRuntime, refusal: &R) -> io::Result<()> {
    rt.println(refusal_line(rt.alloc(), refusal)?)
}

// The listing of the rows' recording without the lost stretches, after a line for each refusal.
fn print_named(rt: &HostRuntime, image: &[u8], named: &Named) -> io::Result<()> {
    let rows = Extents::new(image, &named.rows);
    if let Err(e) = rows.check() {
        print_refusal(rt, &e)?;
    }
    let mut store = Stretches::new(rows);
    for lost in named.lost.iter() {
        if let Err(e) = store.mark(*lost) {
            print_refusal(rt, &e)?;
        }
    }
    print_listed(rt, list_store(rt.alloc(), store, Tuples))
}

// Prints the listing of a card image. With no row named the image is one row.
pub fn print_card(rt: &HostRuntime) -> io::Result<()> {
    let mut named = Named {
        rows: Vec::new(rt.alloc()),
        lost: Vec::new(rt.alloc()),
    };
    for text in env::args(rt)?.skip(1) {
        let Some(word) = Word::read(text.as_bytes()) else {
            return println!(rt; "unknown {text}");
        };
        named.add(word)?;
    }
    let image = read_input(rt)?;
    if image.len() > MOST {
        return print_listed(rt, Err(ListError::TooLong));
    }
    if named.rows.is_empty() {
        named.rows.push(Extent {
            place: 0,
            length: image.len() as u32,
        })?;
    }
    print_named(rt, &image, &named)
}
