// The store of the recording that is set up.
ghost use Rattle.recording.specs.Cells.{plain, plain_bounded};
ghost use Rattle.recording.specs.Pieces.{pieces, pieces_bounded};
ghost use Rattle.smbprobe.specs.declared.store.Below.TheVariants.{Bytes, Rows};

use recording::extents::Extents;
use recording::plain::Plain;
use recording::{Cell, PastEnd, Store};

// What is below the stretches, if stretches can be lost.
#[derive(Clone, Copy)]
pub enum Below<'a> {
    Bytes(Plain<'a>),
    Rows(Extents<'a, 'a>),
}

// A match in each method: of the two stores one is held.
impl Store for Below<'_> {
    ghost cells = { elim [ Bytes s ↦ plain s.bytes.now | Rows s ↦ pieces s.image.now s.rows.now ] };

    ghost bounded = { elim [ Bytes s ↦ plain_bounded s.bytes.now | Rows s ↦ pieces_bounded s.image.now s.rows.now ] };

    fn len(&self) -> u32 {
        match self {
            Below::Bytes(store) => store.len(),
            Below::Rows(store) => store.len(),
        }
    }

    fn cell(&self, at: u32) -> Result<Cell, PastEnd> {
        match self {
            Below::Bytes(store) => store.cell(at),
            Below::Rows(store) => store.cell(at),
        }
    }

    fn whole(&self, at: u32, count: u32) -> bool {
        match self {
            Below::Bytes(store) => store.whole(at, count),
            Below::Rows(store) => store.whole(at, count),
        }
    }

    fn run(&self, at: u32) -> &[u8] {
        match self {
            Below::Bytes(store) => store.run(at),
            Below::Rows(store) => store.run(at),
        }
    }
}
