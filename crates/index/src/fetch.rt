// The bytes of a record that a row names.
ghost use Rattle.std.specs.Prelude.{◌≡◌, ◌+◌, ◌≤◌, length, if◌then◌else◌, Some, None};
ghost use Rattle.recording.specs.Cells.{cell_at};
ghost use Rattle.listing.specs.Fetching.{byte_in, bytes_at, standing, fetching};
ghost use Rattle.index.specs.Indexes.{cells_of, meaning_of, stands_at, progress};

use crate::Index;
use crate::scan::row_of;
use indexfile::row::Row;
use listing::answer::FetchRefusal;
use recording::{Cell, Store};
use records::kind::RecordKind;

impl<S: Store + Drop, K: RecordKind + Drop> Index<S, K> {
    // The row is that of the record that stands at its place.
    pub(crate) fn is_standing(&self, row: Row) -> bool
        ensures { result ≡ standing (stands_at S.Store K.RecordKind self.now row.place) row }
    {
        self.kind
            .record(&self.store, row.place)
            .is_some_and(|x| row_of(row.place, x) == row)
    }

    // The length of a row's record, if it is the record that stands at its place.
    fn record_held(&self, row: Row) -> Option<u32>
        ensures { result ≡ (if standing (stands_at S.Store K.RecordKind self.now row.place) row then Some row.length else None) }
    {
        self.is_standing(row).then_some(row.length)
    }

    fn byte_at(&self, at: u32) -> u8
        ensures { result ≡ byte_in (cell_at (cells_of S.Store self.now) at) }
    {
        // No plainer by Cell::byte, whose None would be turned to 0 again.
        match self.store.cell(at) {
            Ok(Cell::Byte(b)) => b,
            _ => 0,
        }
    }

    // Fills the buffer with the bytes of as many cells.
    pub(crate) fn copy(&self, at: u32, buffer: &mut [u8])
        requires { at + length buffer.old ≤ length (cells_of S.Store self.now) }
        ensures { buffer.new ≡ bytes_at (cells_of S.Store self.now) at (length buffer.old) }
    {
        for (i, byte) in buffer.iter_mut().enumerate() {
            *byte = self.byte_at(at + i as u32);
        }
    }

    // Puts the bytes of a row's record into the front of the buffer, and answers how many they are.
    // The buffer is lent by the caller: nothing here allocates.
    pub fn fetch(&self, table: &[Row], row: u32, buffer: &mut [u8]) -> Result<u32, FetchRefusal>
        ensures { (result, buffer.new) ≡ fetching (meaning_of K.RecordKind self.now) (cells_of S.Store self.now) row buffer.old (progress self.now table.now) }
    {
        // A rule of the project keeps this a chain of let .. else.
        let Some(held) = self.held(table) else {
            return Err(FetchRefusal::ShortTable);
        };
        let Some(&y) = held.get(row as usize) else {
            return Err(FetchRefusal::RowNotHeld);
        };
        let Some(length) = self.record_held(y) else {
            return Err(FetchRefusal::RowNotStanding);
        };
        if buffer.len() < length as usize {
            return Err(FetchRefusal::ShortBuffer);
        }
        self.copy(y.place, &mut buffer[..length as usize]);
        Ok(length)
    }
}
