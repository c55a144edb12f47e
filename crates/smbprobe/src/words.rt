// The words of a line.
use crate::digits::bytes_of;
use layouts::settings::Counter;
use recording::extents::Extent;
use std::alloc::Global;
use std::str::{FromStr, SplitWhitespace};

// The most rows of a table, and the most bytes of a buffer.
const MOST: usize = 2_097_152;

#[derive(Drop)]
pub struct Words<'a> {
    rest: SplitWhitespace<'a>,
}

impl<'a> Words<'a> {
    pub fn of(line: &'a str) -> Words<'a> {
        Words {
            rest: line.split_whitespace(),
        }
    }

    pub fn word(&mut self) -> Option<&'a str> {
        self.rest.next()
    }

    // A number, as its type allows.
    pub fn parsed<T: FromStr>(&mut self) -> Option<T>
    where
        T::Err: Drop,
    {
        self.word()?.parse::<T>().ok()
    }

    // A length of a table or a buffer.
    pub fn size(&mut self) -> Option<usize> {
        let size = self.parsed::<u32>()? as usize;
        (size <= MOST).then_some(size)
    }

    pub fn bytes(&mut self, heap: Global) -> Option<Vec<u8>> {
        bytes_of(heap, self.word()?)
    }

    // `1` where there is a counter.
    pub fn counter(&mut self) -> Option<Counter> {
        match self.word()? {
            "1" => Some(Counter::With),
            "0" => Some(Counter::Without),
            _ => None,
        }
    }

    // Rows `PLACE:LENGTH` with commas between them, or no word.
    pub fn extents(&mut self, heap: Global) -> Option<Vec<Extent>> {
        let mut rows = Vec::new(heap);
        if let Some(word) = self.word() {
            for row in word.split(',') {
                rows.push(extent(row)?).ok()?;
            }
        }
        Some(rows)
    }
}

fn extent(text: &str) -> Option<Extent> {
    let (place, length) = text.split_once(':')?;
    Some(Extent {
        place: place.parse::<u32>().ok()?,
        length: length.parse::<u32>().ok()?,
    })
}
