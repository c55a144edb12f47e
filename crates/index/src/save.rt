// The index file of the rows held.
ghost use Rattle.std.specs.Prelude.{◌≡◌, take, IfOk};
ghost use Rattle.indexfile.specs.Written.{ReadsBack};
ghost use Rattle.listing.specs.Progress.{held};
ghost use Rattle.listing.specs.Saving.{saving};
ghost use Rattle.index.specs.Indexes.{progress};

use crate::Index;
use indexfile::row::Row;
use indexfile::write::write;
use listing::answer::SaveRefusal;
use recording::Store;
use records::kind::RecordKind;

impl<S: Store + Drop, K: RecordKind + Drop> Index<S, K> {
    // Puts the index file into the front of the buffer, and answers how many bytes it has.
    // The buffer is lent by the caller: nothing here allocates.
    pub fn save(&self, table: &[Row], buffer: &mut [u8]) -> Result<u32, SaveRefusal>
        ensures value { (result, buffer.new) ≡ saving buffer.old (progress self.now table.now) }
        ensures law { IfOk result (λ n. ReadsBack self.now.counts.place self.now.counts.skipped (held (progress self.now table.now)) (take n buffer.new)) }
    {
        let held = self.held(table).ok_or(SaveRefusal::ShortTable)?;
        Ok(write(held, self.counts.place, self.counts.skipped, buffer)?)
    }
}
