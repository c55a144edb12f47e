// A new index of a recording, and what is promised of it.
ghost use Rattle.std.specs.Prelude.{◌≡◌, List};
ghost use Rattle.indexfile.specs.declared.row.Row.{Row};
ghost use Rattle.index.specs.Indexes.{cells_of, meaning_of, progress};
ghost use Rattle.listing.specs.Visits.{unused};
ghost use Rattle.listing.specs.Promise.{Promise};

use crate::Index;
use indexfile::counts::Counts;
use recording::Store;
use records::kind::RecordKind;

impl<S: Store + Drop, K: RecordKind + Drop> Index<S, K> {
    pub fn open(store: S, kind: K) -> Index<S, K>
        ensures owns { (result.store ≡ store) × (result.kind ≡ kind) }
        ensures new { (table : List Row) → progress result table ≡ unused table }
        ensures promise { Promise K.RecordKind.longest (meaning_of K.RecordKind result) (cells_of S.Store result) }
    {
        Index {
            store,
            kind,
            counts: Counts {
                rows: 0,
                place: 0,
                skipped: 0,
            },
        }
    }
}
