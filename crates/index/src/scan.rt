// Reading on along the listing.
ghost use Rattle.std.specs.Prelude.{◌≡◌, ℕ, ◌+◌, ◌<◌, ◌≤◌, true, length, Some, None, is_some};
ghost use Rattle.std.specs.Option.{option_map};
ghost use Rattle.index.specs.Indexes.{cells_of, stands_at};
ghost use Rattle.listing.specs.Listing.{row_at};
ghost use Rattle.index.specs.Calls.{Turn, Pass, Turns, Scan};

use crate::Index;
use indexfile::row::Row;
use listing::answer::{ScanRefusal, Scanned, Stop};
use recording::Store;
use records::kind::{Record, RecordKind};

// The most rows that an index holds, and the most tests of one scan.
// No plainer shared with indexfile's, which bounds the rows of a file.
pub const MOST: u32 = 65_536;

// The row of a record that stands at a place. No From, since both types are of other crates.
pub fn row_of(place: u32, x: Record) -> Row
    ensures { result ≡ row_at place x }
{
    Row {
        place,
        length: x.length,
        tag: x.tag,
        source_type: x.source_type,
        source_id: x.source_id,
        time: x.time,
    }
}

impl<S: Store + Drop, K: RecordKind + Drop> Index<S, K> {
    // The row of the record that stands at the place.
    fn row_at(&self, at: u32) -> Row
        requires { is_some (stands_at S.Store K.RecordKind self.now at) ≡ true }
        ensures { option_map (row_at at) (stands_at S.Store K.RecordKind self.now at) ≡ Some result }
    {
        row_of(at, self.kind.record(&self.store, at).unwrap())
    }

    // How many cells from a place on no record begins at, so many at the most, as far as the store has bytes at hand.
    // No byte is looked at that is further ahead.
    pub(crate) fn vacant(&self, at: u32, most: u32) -> u32
        ensures few { result ≤ most }
        ensures none { (k : ℕ) → k < result → stands_at S.Store K.RecordKind self.now (at + k) ≡ None }
        ensures within { at ≤ length (cells_of S.Store self.now) → at + result ≤ length (cells_of S.Store self.now) }
    {
        let run = self.store.run(at);
        let near = run.len().min(most as usize + 1);
        self.kind.vacant(&run[0..near]).min(most as usize) as u32
    }

    // Skips cells at which no record begins, so many at the most: how many.
    fn pass(&mut self, most: u32) -> u32
        requires { self.old.counts.place ≤ length (cells_of S.Store self.old) }
        ensures { Pass S.Store K.RecordKind most self.old result self.new }
    {
        let n = self.vacant(self.counts.place, most);
        self.counts.place += n;
        self.counts.skipped += n;
        n
    }

    // One test: a record fills the next row and is left behind, or one cell is skipped.
    // False: a record stands here, and no row is free. A bool, since no value goes with either.
    fn turn(&mut self, table: &mut [Row]) -> bool
        requires { self.old.counts.place < length (cells_of S.Store self.old) }
        ensures { Turn S.Store K.RecordKind self.old table.old result self.new table.new }
    {
        match self.kind.test(&self.store, self.counts.place) {
            None => {
                self.counts.place += 1;
                self.counts.skipped += 1;
                true
            }
            Some(length) => {
                if self.counts.rows < MOST && (self.counts.rows as usize) < table.len() {
                    table[self.counts.rows as usize] = self.row_at(self.counts.place);
                    self.counts.rows += 1;
                    self.counts.place += length;
                    true
                } else {
                    false
                }
            }
        }
    }

    // Turns until the end, the budget or the table stops them: why, and how many tests were made.
    fn read_on(&mut self, table: &mut [Row], budget: u32) -> (Stop, u32)
        ensures { Turns S.Store K.RecordKind budget self.old table.old result.0 result.1 self.new table.new }
    {
        let mut tests = 0;
        // a `while`, since turns and passes move the place by what they find
        while self.counts.place < self.store.len() {
            if tests == budget {
                return (Stop::Spent, tests);
            }
            tests += 1;
            if !self.turn(table) {
                return (Stop::Full, tests);
            }
            tests += self.pass(budget - tests);
        }
        (Stop::Ended, tests)
    }

    // Reads on with so many tests at the most, and puts the rows of the records found into the table.
    pub fn scan(&mut self, table: &mut [Row], budget: u32) -> Result<Scanned, ScanRefusal>
        ensures { Scan S.Store K.RecordKind budget self.old table.old result self.new table.new }
    {
        self.held(table).ok_or(ScanRefusal::ShortTable)?;
        if !(1..=MOST).contains(&budget) {
            return Err(ScanRefusal::WrongBudget);
        }
        let held = self.counts.rows;
        let (stop, tests) = self.read_on(table, budget);
        Ok(Scanned {
            stop,
            tests,
            added: self.counts.rows - held,
        })
    }
}
