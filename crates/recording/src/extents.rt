// A recording that lies in pieces in a card image.
ghost use Rattle.std.specs.Prelude.{◌≡◌, ◌+◌, ◌^◌, ◌<◌, take, drop, sum_by};
ghost use Rattle.recording.specs.Cells.{whole_from, bytes_only};
ghost use Rattle.recording.specs.Pieces.{cell_in, added, pieces, Located, judged, first_bad, pieces_bounded};
ghost use Rattle.recording.specs.Checks.{Checked};
ghost use Rattle.recording.specs.Refusals.{bad_extent};

use crate::{Cell, PastEnd, Store};
use refusals::{Notice, Refusal};

// The most cells of a row.
pub const LONGEST: u32 = 33_554_431;

// The most rows that add cells.
pub const MOST: usize = 64;

// A row: `length` cells of the image from `place` on.
#[derive(Clone, Copy, Debug, PartialEq, Eq)]
pub struct Extent {
    pub place: u32,
    pub length: u32,
}

// Why a row adds no cells, with the row's number.
#[derive(Clone, Copy, Debug, PartialEq, Eq)]
pub enum BadExtent {
    // The row is longer than a row may be.
    TooLong(usize),
    // The row comes after the last that adds cells.
    TooMany(usize),
}

// The rows' bytes of the image, in the order of the rows. A cell outside of the image is lost.
#[derive(Clone, Copy)]
pub struct Extents<'i, 'r> {
    image: &'i [u8],
    rows: &'r [Extent],
}

impl Extent {
    // How many cells the row adds.
    fn adds(&self) -> u32
        ensures { result ≡ added self.now }
    {
        if self.length <= LONGEST {
            self.length
        } else {
            0
        }
    }

    // Whether the row, of this number, adds all its cells.
    fn judge(&self, row: usize) -> Result<(), BadExtent>
        ensures { result ≡ judged row self.now }
    {
        if row >= MOST {
            return Err(BadExtent::TooMany(row));
        }
        if self.length > LONGEST {
            return Err(BadExtent::TooLong(row));
        }
        Ok(())
    }
}

// How many cells the rows add.
fn total(rows: &[Extent]) -> u32
    requires { sum_by added rows.now < 2 ^ 32 }
    ensures { result ≡ sum_by added rows.now }
{
    rows.iter().map(Extent::adds).sum()
}

// The rows that may add cells.
fn used(rows: &[Extent]) -> &[Extent]
    ensures { result.now ≡ take 64 rows.now }
{
    &rows[..rows.len().min(MOST)]
}

fn cell_in(image: &[u8], at: usize) -> Cell
    ensures { result ≡ cell_in image.now at }
{
    image.get(at).copied().map_or(Cell::Lost, Cell::Byte)
}

// The image's bytes from a place on, so many at the most.
fn part(image: &[u8], from: usize, most: usize) -> &[u8]
    ensures { result.now ≡ take most (drop from image.now) }
{
    let rest = &image[from.min(image.len())..];
    &rest[..rest.len().min(most)]
}

// Whether the image has all of the `count` bytes from `place + skip` on.
fn reaches(image: &[u8], place: u32, skip: u32, count: u32) -> bool
    ensures { result ≡ whole_from (bytes_only image.now) (place + skip) count }
{
    count == 0 || place as usize + skip as usize + count as usize <= image.len()
}

impl<'i, 'r> Extents<'i, 'r> {
    pub fn new(image: &'i [u8], rows: &'r [Extent]) -> Extents<'i, 'r>
        ensures cells { pieces result.image.now result.rows.now ≡ pieces image.now rows.now }
        ensures image { result.image.now ≡ image.now }
        ensures rows { result.rows.now ≡ rows.now }
    {
        Extents { image, rows }
    }

    // The row that adds the cell at a place, and the number of the cell in that row.
    // A chain would be no plainer: what is left of the place changes from row to row.
    fn row_at(&self, at: u32) -> Option<(Extent, u32)>
        ensures { Located self.now.image.now (take 64 self.now.rows.now) at result }
    {
        let mut left = at;
        for row in used(self.rows) {
            let n = row.adds();
            if left < n {
                return Some((*row, left));
            }
            left -= n;
        }
        None
    }

    // Names the first row that adds no cells.
    pub fn check(&self) -> Result<(), BadExtent>
        ensures is { result ≡ first_bad 0 self.now.rows.now }
        ensures says { Checked self.now.image.now self.now.rows.now result }
    {
        for (i, row) in self.rows.iter().enumerate() {
            row.judge(i)?;
        }
        Ok(())
    }
}

impl Store for Extents<'_, '_> {
    ghost cells = { λ s. pieces s.image.now s.rows.now };

    ghost bounded = { λ s. pieces_bounded s.image.now s.rows.now };

    fn len(&self) -> u32 {
        total(used(self.rows))
    }

    fn cell(&self, at: u32) -> Result<Cell, PastEnd> {
        let (row, skip) = self.row_at(at).ok_or(PastEnd)?;
        Ok(cell_in(self.image, row.place as usize + skip as usize))
    }

    // Looks at no cell: a row is passed over, or its part of the run lies in the image or does not.
    // A chain would be no plainer: two counts change from row to row.
    fn whole(&self, at: u32, count: u32) -> bool {
        let mut skip = at;
        let mut left = count;
        for row in used(self.rows) {
            let n = row.adds();
            let passed = skip.min(n);
            let here = left.min(n - passed);
            if !reaches(self.image, row.place, passed, here) {
                return false;
            }
            skip -= passed;
            left -= here;
        }
        left == 0
    }

    // What is left of the row that has the place, as far as the image has it.
    fn run(&self, at: u32) -> &[u8] {
        match self.row_at(at) {
            Some((row, skip)) => part(
                self.image,
                row.place as usize + skip as usize,
                row.adds() as usize - skip as usize,
            ),
            None => &[],
        }
    }
}

impl Refusal for BadExtent {
    ghost told = { bad_extent };

    fn notice(&self) -> Notice {
        match self {
            BadExtent::TooLong(row) | BadExtent::TooMany(row) => Notice::at(16, *row),
        }
    }
}
