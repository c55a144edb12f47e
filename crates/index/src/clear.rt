// Whether a boundary is clear.
ghost use Rattle.std.specs.Prelude.{◌≡◌, ◌≤◌};
ghost use Rattle.index.specs.Indexes.{cells_of, meaning_of, stands_at, progress};
ghost use Rattle.listing.specs.Clearing.{ends_after, clearing, cleared, Tells};

use crate::Index;
use indexfile::row::Row;
use listing::answer::ClearRefusal;
use recording::Store;
use records::kind::RecordKind;

impl<S: Store + Drop, K: RecordKind + Drop> Index<S, K> {
    // A record stands at the place, and ends after the boundary.
    fn ends_after(&self, at: u32, boundary: u32) -> bool
        ensures { result ≡ ends_after boundary at (stands_at S.Store K.RecordKind self.now at) }
    {
        self.kind
            .test(&self.store, at)
            .is_some_and(|length| at + length > boundary)
    }

    // The lowest place whose record crosses the boundary; the longest record decides where to begin.
    fn crossed(&self, boundary: u32) -> Option<u32>
        requires { boundary ≤ 2147483647 }
        ensures { result ≡ cleared (meaning_of K.RecordKind self.now) (cells_of S.Store self.now) boundary }
    {
        // a `while`, since it steps over what is vacant too
        let mut at = (boundary + 1).saturating_sub(self.kind.longest());
        while at < boundary {
            if self.ends_after(at, boundary) {
                return Some(at);
            }
            at += 1;
            at += self.vacant(at, boundary - at);
        }
        None
    }

    // The lowest place of a record that crosses the boundary: none exactly if it is clear.
    pub fn clear(&self, table: &[Row], boundary: u32) -> Result<Option<u32>, ClearRefusal>
        ensures answer { result ≡ clearing (meaning_of K.RecordKind self.now) (cells_of S.Store self.now) boundary (progress self.now table.now) }
        ensures tells { Tells (meaning_of K.RecordKind self.now) (cells_of S.Store self.now) boundary (progress self.now table.now) result }
    {
        self.held(table).ok_or(ClearRefusal::ShortTable)?;
        if boundary > self.store.len() {
            return Err(ClearRefusal::PastEnd);
        }
        Ok(self.crossed(boundary))
    }
}
