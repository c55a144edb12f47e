// An index of a recording: how far it was read, and how many rows it holds.
#![tactic(auto)]

ghost use Rattle.std.specs.Prelude.{◌≡◌, ◌<◌, ◌≤◌, length, take};
ghost use Rattle.std.specs.Option.{MatchOption};

use indexfile::counts::Counts;
use indexfile::row::Row;
use recording::Store;
use records::kind::RecordKind;

pub mod clear;
pub mod fetch;
pub mod inspect;
pub mod open;
pub mod run;
pub mod save;
pub mod scan;
pub mod settle;

#[derive(Drop)]
pub struct Index<S: Store + Drop, K: RecordKind + Drop> {
    store: S,
    kind: K,
    // The table is lent by the caller: nothing here allocates.
    counts: Counts,
    ghost bounds: { (counts.skipped ≤ counts.place) × (counts.place ≤ 2147483647) × (counts.rows ≤ 65536) },
}

impl<S: Store + Drop, K: RecordKind + Drop> Index<S, K> {
    // The rows held, the place reached and the cells skipped.
    pub fn counts(&self) -> Counts
        ensures { result ≡ self.now.counts }
    {
        self.counts
    }

    // The place reached.
    pub fn place(&self) -> u32
        ensures { result ≡ self.now.counts.place }
    {
        self.counts.place
    }

    // The cells passed over at which no record stands.
    pub fn skipped(&self) -> u32
        ensures { result ≡ self.now.counts.skipped }
    {
        self.counts.skipped
    }

    // The rows held: so many at the front of the table.
    pub fn rows(&self) -> u32
        ensures { result ≡ self.now.counts.rows }
    {
        self.counts.rows
    }

    // The rows held, unless the table is shorter.
    fn held<'a>(&self, table: &'a [Row]) -> Option<&'a [Row]>
        ensures { MatchOption result (length table.now < self.now.counts.rows) (λ x. (self.now.counts.rows ≤ length table.now) × (x.now ≡ take self.now.counts.rows table.now)) }
    {
        table.get(..self.counts.rows as usize)
    }
}
