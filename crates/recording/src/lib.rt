// A recording is a list of cells, and a store is what holds one.
#![tactic(auto)]

ghost use Rattle.std.specs.Prelude.{◌≡◌, ℕ, ◌≤◌, true, ◌↔◌, List, length};
ghost use Rattle.recording.specs.declared.Cell.{Cell};
ghost use Rattle.recording.specs.Cells.{byte_held, cell_at, whole_from, Bytes, whole_everywhere, Stand};

pub mod extents;
pub mod plain;
pub mod refusal;
pub mod stretches;

// One cell of a recording: a byte, or a cell that could not be read.
// An enum of its own and no Option: Byte and Lost are the words that every theorem on recordings speaks in.
#[derive(Clone, Copy, Debug, PartialEq, Eq)]
pub enum Cell {
    Byte(u8),
    Lost,
}

impl Cell {
    // The byte that the cell holds.
    pub fn byte(self) -> Option<u8>
        ensures { result ≡ byte_held self }
    {
        match self {
            Cell::Byte(b) => Some(b),
            Cell::Lost => None,
        }
    }
}

// The recording has no cell at the place.
#[derive(Clone, Copy, Debug, PartialEq, Eq)]
pub struct PastEnd;

// The most cells that a recording has.
pub const LIMIT: u32 = 2_147_483_647;

// What holds a recording: `cells` is the recording that it means.
pub trait Store {
    ghost cells: { Self → List Cell };

    ghost bounded: { (s : Self) → length (cells s) ≤ 2147483647 };

    // A run of cells is whole exactly if there is a byte at each of its places.
    ghost everywhere: { (cs : List Cell) (at count : ℕ) → (whole_from cs at count ≡ true) ↔ Bytes cs at count } = { whole_everywhere };

    fn len(&self) -> u32
        ensures { result ≡ length (cells self.now) };

    fn cell(&self, at: u32) -> Result<Cell, PastEnd>
        ensures { result ≡ cell_at (cells self.now) at };

    // Whether all of the `count` cells from `at` on exist and are bytes.
    // No Stretch: that says what is lost, of which most stores know nothing.
    fn whole(&self, at: u32, count: u32) -> bool
        ensures { result ≡ whole_from (cells self.now) at count }
    {
        // A for: that at + k fits follows from the cells before it, which a closure does not see.
        for k in 0..count {
            let Ok(Cell::Byte(_)) = self.cell(at + k) else {
                return false;
            };
        }
        true
    }

    // Bytes that stand one behind the other from the place on: as many as the store has at hand, or none.
    fn run(&self, at: u32) -> &[u8]
        ensures { Stand (cells self.now) at result.now }
    {
        let _ = at;
        &[]
    }
}
