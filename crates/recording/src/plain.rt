// A recording whose cells are all bytes.
ghost use Rattle.std.specs.Prelude.{◌≡◌, ◌≤◌, length};
ghost use Rattle.recording.specs.Cells.{plain, plain_bounded};

use crate::{Cell, LIMIT, PastEnd, Store};

// The caller's bytes up to the limit; those past it are not cells.
#[derive(Clone, Copy)]
pub struct Plain<'a> {
    bytes: &'a [u8],
    ghost small: { length bytes.now ≤ 2147483647 },
}

impl<'a> Plain<'a> {
    pub fn new(bytes: &'a [u8]) -> Plain<'a>
        ensures { plain result.bytes.now ≡ plain bytes.now }
    {
        Plain {
            bytes: &bytes[..bytes.len().min(LIMIT as usize)],
        }
    }
}

impl Store for Plain<'_> {
    ghost cells = { λ s. plain s.bytes.now };

    ghost bounded = { λ s. plain_bounded s.bytes.now };

    // The limit said once more: with it, reads of some cells in a row become one.
    fn len(&self) -> u32 {
        self.bytes.len().min(LIMIT as usize) as u32
    }

    // A chain over get was tried: it lists 6 percent slower.
    fn cell(&self, at: u32) -> Result<Cell, PastEnd> {
        if at < self.len() {
            Ok(Cell::Byte(self.bytes[at as usize]))
        } else {
            Err(PastEnd)
        }
    }

    // Every cell is a byte, so only the end counts.
    // One test shared with extents was tried: it lists 8 percent slower.
    fn whole(&self, at: u32, count: u32) -> bool {
        count == 0 || at as u64 + count as u64 <= self.bytes.len() as u64
    }

    // All bytes from the place on.
    fn run(&self, at: u32) -> &[u8] {
        &self.bytes[self.bytes.len().min(at as usize)..]
    }
}
