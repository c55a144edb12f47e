// Visits to an index, one after the other, all with one table.
ghost use Rattle.std.specs.Prelude.{◌≡◌, List};
ghost use Rattle.indexfile.specs.declared.row.Row.{Row};
ghost use Rattle.index.specs.Calls.{Made, Ran, Opened, Serves};

use crate::Index;
use indexfile::row::Row;
use listing::answer::{Answer, Call, Visit};
use recording::Store;
use records::kind::RecordKind;

impl<S: Store + Drop, K: RecordKind + Drop> Index<S, K> {
    // Makes one call.
    pub fn visit(&mut self, table: &mut [Row], buffer: &mut [u8], call: Call) -> Answer
        ensures { Made S.Store K.RecordKind call self.old table.old buffer.old result self.new table.new buffer.new }
    {
        // A match: a visit is data that the caller lends.
        match call {
            Call::Scan(budget) => Answer::Scan(self.scan(table, budget)),
            Call::Clear(boundary) => Answer::Clear(self.clear(table, boundary)),
            Call::Fetch(row) => Answer::Fetch(self.fetch(table, row, buffer)),
            Call::Settle(row) => Answer::Settle(self.settle(table, row)),
            Call::Inspect(row) => Answer::Inspect(self.inspect(table, row, buffer)),
            Call::Save => Answer::Save(self.save(table, buffer)),
        }
    }

    // Makes the calls of all visits in order, all with one buffer, and notes each answer with its call.
    pub fn run(&mut self, table: &mut [Row], buffer: &mut [u8], visits: &mut [Visit])
        ensures ran { Ran S.Store K.RecordKind visits.old self.old table.old buffer.old visits.new self.new table.new buffer.new }
        ensures serves { (start : List Row) → Opened S.Store K.RecordKind start self.old table.old → Serves S.Store K.RecordKind start self.new table.new }
    {
        for visit in visits.iter_mut() {
            visit.answer = Some(self.visit(table, buffer, visit.call));
        }
    }
}
